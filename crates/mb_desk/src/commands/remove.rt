//! `remove KIND NAME`.
ghost use Rattle.std.specs.Prelude.{◌≡◌, IfOk};
ghost use Rattle.mb_desk.specs.Decision.{DoesRows};
ghost use Rattle.mb_desk.specs.Needs.{RowsAlone, Touches};
ghost use Rattle.mb_desk.specs.RemoveCommand.{remove_plan, removed_line};

use crate::plans::{Change, Plan, Stop};
use crate::records::try_remove;
use crate::texts::NameWord;
use mb_outside::Keeper;
use mb_registry::{Body, Kind};
use std::alloc::{AllocError, Global};

/// The line that is printed.
fn removed_line(alloc: Global, kind: Kind, name: &str) -> Result<Body, AllocError>
    ensures { IfOk result (λ line. line ≡ removed_line kind name.now) }
{
    let kind_word = kind.word();
    Ok(Body::of_line(format!(in alloc; "removed {kind_word} {name}\n")?))
}

/// A record to which no other refers is taken out.
pub fn plan<'a, K: Keeper>(
    alloc: Global,
    keeper: &mut K,
    kind: Kind,
    name: &NameWord<'a>,
) -> Result<Plan<'a>, Stop>
    ensures does { DoesRows (K.rows keeper.old) (K.rows keeper.new)
        (K.faults keeper.old) (K.faults keeper.new)
        result (remove_plan kind name.now) }
    ensures touches { IfOk result (λ plan. Touches RowsAlone plan.change) }
{
    try_remove(alloc, keeper, kind, name)?;
    let answer = removed_line(alloc, kind, name.as_str())?;
    Ok(Plan {
        answer,
        change: Change::Removes {
            kind,
            name: name.word(),
        },
    })
}
