//! `list`.
ghost use Rattle.std.specs.Prelude.{◌≡◌, IfOk};
ghost use Rattle.mb_desk.specs.Decision.{DoesRows};
ghost use Rattle.mb_desk.specs.ListCommand.{list_plan, printed_list};
ghost use Rattle.mb_desk.specs.Needs.{RowsAlone, Touches};
ghost use Rattle.mb_registry.specs.Listing.{list_text};

use crate::plans::{Change, Plan, Stop};
use crate::records::look_stop;
use mb_outside::Keeper;
use mb_registry::{Body, Listed, Registry, record_list};
use mb_tables::OutOfMemory;
use std::alloc::Global;

/// The printed list.
fn printed(alloc: Global, listed: &[Listed]) -> Result<Body, OutOfMemory>
    ensures { IfOk result (λ text. text ≡ list_text listed.now) }
{
    Ok(Body::of(record_list(alloc, listed)?))
}

/// All records, by kind and then by name, as they are printed.
fn list_all<K: Keeper>(alloc: Global, keeper: &mut K) -> Result<Body, Stop>
    ensures does { DoesRows (K.rows keeper.old) (K.rows keeper.new)
        (K.faults keeper.old) (K.faults keeper.new)
        result printed_list }
{
    match Registry::list(alloc, keeper) {
        Ok(listed) => Ok(printed(alloc, listed.as_slice())?),
        Err(fault) => Err(look_stop(fault)),
    }
}

/// All records are printed.
pub fn plan<'a, K: Keeper>(alloc: Global, keeper: &mut K) -> Result<Plan<'a>, Stop>
    ensures does { DoesRows (K.rows keeper.old) (K.rows keeper.new)
        (K.faults keeper.old) (K.faults keeper.new)
        result list_plan }
    ensures touches { IfOk result (λ plan. Touches RowsAlone plan.change) }
{
    let answer = list_all(alloc, keeper)?;
    Ok(Plan {
        answer,
        change: Change::Nothing,
    })
}
