//! The work of a request: its plan, and then its one change.
ghost use Rattle.std.specs.Prelude.{◌≡◌, Err, IfOk, Ok, Result};
ghost use Rattle.mb_desk.specs.Commands.{needs_of, plan_of, scene_for};
ghost use Rattle.mb_desk.specs.Decision.{Does, InWorld};
ghost use Rattle.mb_desk.specs.Ends.{EachLeft, Ends, Stays};
ghost use Rattle.mb_desk.specs.Needs.{Touches};
ghost use Rattle.mb_desk.specs.Sound.{AreSound};
ghost use Rattle.mb_desk.specs.SoundLaws.{CanBeSaid, IsRequest};
ghost use Rattle.mb_desk.specs.declared.plans.Stop.{Stop as Stops};
ghost use Rattle.mb_outside.specs.Told.{WhereTold};

use crate::commands::{
    analyse, basis, check, dataset, export, generate, import, list, model, moves, reach, remove,
    report,
};
use crate::commit::commit;
use crate::plans::{Plan, Stop};
use crate::requests::Request;
use mb_outside::{Files, Gate, Keeper};
use mb_registry::Body;
use std::alloc::Global;
use std::thread::Threads;

/// A name that is kept has the form of names, and a limit is within its range.
fn see_words(request: &Request<'_>)
    ensures { IsRequest request.now }
{
    match request {
        Request::Moves(_) => {}
        Request::Reach(_) => {}
        Request::Check { certificate: _ } => {}
        Request::Generate {
            seed: _,
            workers: _,
        } => {}
        Request::Dataset { name, file: _ } => {
            let _name = name.as_str();
        }
        Request::Model(words) => {
            let _name = words.name.as_str();
        }
        Request::Basis(words) => {
            let _name = words.name.as_str();
        }
        Request::Import(words) => {
            let _name = words.name.as_str();
        }
        Request::Analyse(words) => {
            let _name = words.name.as_str();
            let _limit = words.limit.tables();
        }
        Request::Report { name: _ } => {}
        Request::List => {}
        Request::Export {
            part: _,
            name: _,
            file: _,
        } => {}
        Request::Remove { kind: _, name: _ } => {}
    }
}

/// The plan of a request, or its first refusal. Nothing is stored.
fn plan<'a, R: Threads + Sync, F: Files, K: Keeper, G: Gate + Sync>(
    rt: &R,
    alloc: Global,
    files: &mut F,
    keeper: &mut K,
    request: &Request<'a>,
    gate: &G,
) -> Result<Plan<'a>, Stop>
    ensures does { Does
        (scene_for request.now
        (F.held files.old) (F.faults files.old) (K.rows keeper.old) (K.faults keeper.old))
        (scene_for request.now
        (F.held files.new) (F.faults files.new) (K.rows keeper.new) (K.faults keeper.new))
        result (plan_of request.now) }
    ensures touches { IfOk result (λ plan. Touches (needs_of request.now) plan.change) }
    ensures same_files { F.held files.new ≡ F.held files.old }
    ensures same_rows { WhereTold (K.rows keeper.old) (K.rows keeper.new) (λ before after.
        after ≡ before) }
    ensures said { IfOk result (λ _. InWorld
        (scene_for request.now
        (F.held files.old) (F.faults files.old) (K.rows keeper.old) (K.faults keeper.old))
        (scene_for request.now
        (F.held files.new) (F.faults files.new) (K.rows keeper.new) (K.faults keeper.new))
        (λ w _. IsRequest request.now × CanBeSaid request.now w)) }
{
    see_words(request);
    match request {
        Request::Moves(words) => moves::plan(alloc, files, words),
        Request::Reach(words) => reach::plan(rt, alloc, files, words, gate),
        Request::Check { certificate } => check::plan(alloc, files, certificate),
        Request::Generate { seed, workers } => generate::plan(rt, alloc, *seed, workers, gate),
        Request::Dataset { name, file } => dataset::plan(alloc, files, keeper, name, file),
        Request::Model(words) => model::plan(alloc, files, keeper, words),
        Request::Basis(words) => basis::plan(alloc, keeper, words),
        Request::Import(words) => import::plan(alloc, files, keeper, words),
        Request::Analyse(words) => analyse::plan(rt, alloc, keeper, words, gate),
        Request::Report { name } => report::plan(alloc, keeper, name),
        Request::List => list::plan(alloc, keeper),
        Request::Export { part, name, file } => export::plan(
            alloc, files, keeper, *part, name, file,
        ),
        Request::Remove { kind, name } => remove::plan(alloc, keeper, *kind, name),
    }
}

/// Does the work of a request, and answers what is to be put.
pub fn work<R: Threads + Sync, F: Files, K: Keeper, G: Gate + Sync>(
    rt: &R,
    alloc: Global,
    files: &mut F,
    keeper: &mut K,
    request: &Request<'_>,
    gate: &G,
) -> Result<Body, Stop>
    ensures ends { Ends
        (scene_for request.now
        (F.held files.old) (F.faults files.old) (K.rows keeper.old) (K.faults keeper.old))
        (scene_for request.now
        (F.held files.new) (F.faults files.new) (K.rows keeper.new) (K.faults keeper.new))
        (plan_of request.now) result }
    ensures same_files { Stays result (F.held files.new ≡ F.held files.old) }
    ensures same_rows { Stays result (WhereTold (K.rows keeper.old) (K.rows keeper.new)
        (λ before after. after ≡ before)) }
    ensures each_done { IfOk result (λ _. EachLeft (needs_of request.now)
        (F.held files.old) (F.held files.new) (K.rows keeper.old) (K.rows keeper.new) (Ok tt)) }
    ensures each_failed { result ≡ Err Stop.Outside → (made : Result (Unit {0}) Stops)
        × EachLeft (needs_of request.now)
        (F.held files.old) (F.held files.new) (K.rows keeper.old) (K.rows keeper.new) made }
    ensures sound { InWorld
        (scene_for request.now
        (F.held files.old) (F.faults files.old) (K.rows keeper.old) (K.faults keeper.old))
        (scene_for request.now
        (F.held files.new) (F.faults files.new) (K.rows keeper.new) (K.faults keeper.new))
        (λ before after. AreSound before.rows → AreSound after.rows) }
{
    let Plan { answer, change } = match plan(rt, alloc, files, keeper, request, gate) {
        Ok(planned) => planned,
        Err(stop) => return Err(stop),
    };
    match commit(alloc, files, keeper, &change) {
        Ok(()) => Ok(answer),
        Err(stop) => Err(stop),
    }
}
