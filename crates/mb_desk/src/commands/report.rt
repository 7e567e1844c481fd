//! `report NAME`.
ghost use Rattle.std.specs.Prelude.{◌≡◌, IfOk};
ghost use Rattle.mb_desk.specs.Decision.{DoesRows};
ghost use Rattle.mb_desk.specs.Needs.{RowsAlone, Touches};
ghost use Rattle.mb_desk.specs.ReportCommand.{printed_report, report_plan};
ghost use Rattle.mb_reports.specs.Analysed.{report_on};
ghost use Rattle.mb_reports.specs.Report.{IsReport, report_text};

use crate::plans::{Change, Plan, Stop};
use crate::records::look_stop;
use crate::texts::NameWord;
use mb_outside::Keeper;
use mb_registry::{Body, analysis};
use mb_reports::{Analysis, report};
use mb_tables::OutOfMemory;
use std::alloc::Global;

/// The text of a report.
fn printed(alloc: Global, analysis: &Analysis) -> Result<Body, OutOfMemory>
    requires { IsReport (report_on analysis.now) }
    ensures { IfOk result (λ text. text ≡ report_text (report_on analysis.now)) }
{
    Ok(Body::of(report(alloc, analysis)?))
}

/// The text of the report of a name.
fn report_named<K: Keeper>(alloc: Global, keeper: &mut K, name: &NameWord<'_>) -> Result<Body, Stop>
    ensures does { DoesRows (K.rows keeper.old) (K.rows keeper.new)
        (K.faults keeper.old) (K.faults keeper.new)
        result (printed_report name.now) }
{
    match analysis(alloc, keeper, name.as_str()) {
        Ok(analysis) => Ok(printed(alloc, &analysis)?),
        Err(fault) => Err(look_stop(fault)),
    }
}

/// The report of an analysis that is kept is printed.
pub fn plan<'a, K: Keeper>(
    alloc: Global,
    keeper: &mut K,
    name: &NameWord<'_>,
) -> Result<Plan<'a>, Stop>
    ensures does { DoesRows (K.rows keeper.old) (K.rows keeper.new)
        (K.faults keeper.old) (K.faults keeper.new)
        result (report_plan name.now) }
    ensures touches { IfOk result (λ plan. Touches RowsAlone plan.change) }
{
    let answer = report_named(alloc, keeper, name)?;
    Ok(Plan {
        answer,
        change: Change::Nothing,
    })
}
