//! The top call.
ghost use Rattle.std.specs.Prelude.{◌≡◌, ◌≤◌, ◌≢◌, ◌⊎◌, IfSome, List, None, Ok, Result, ℕ};
ghost use Rattle.mb_desk.specs.Changes.{changed};
ghost use Rattle.mb_desk.specs.Commands.{needs_of, plan_of, scene_for};
ghost use Rattle.mb_desk.specs.Completes.{Completes};
ghost use Rattle.mb_desk.specs.Decision.{InWorld, scene};
ghost use Rattle.mb_desk.specs.Ends.{EachLeft};
ghost use Rattle.mb_desk.specs.Headline.{Answers};
ghost use Rattle.mb_desk.specs.Reply.{EndsAndPuts, Puts, no_request};
ghost use Rattle.mb_desk.specs.Sound.{AreSound};
ghost use Rattle.mb_desk.specs.Forms.{texts};
ghost use Rattle.mb_desk.specs.Words.{request_of};
ghost use Rattle.mb_desk.specs.declared.plans.Plan.{Plan};
ghost use Rattle.mb_desk.specs.declared.plans.Stop.{Stop};
ghost use Rattle.mb_outside.specs.Causes.{Rose};
ghost use Rattle.mb_outside.specs.Sink.{Grows};
ghost use Rattle.mb_outside.specs.Told.{WhereTold};

use crate::reply::{put_no_request, put_reply};
use crate::status::Status;
use crate::words::read_words;
use crate::work::work;
use mb_outside::{Files, Gate, Keeper, Sink};
use std::alloc::Global;
use std::thread::Threads;

/// Does all that the program does: reads the words, does the request's work over the files and the
/// keeper, and puts the whole answer, or one refusal line, in one piece.
pub fn desk<R: Threads + Sync, F: Files, K: Keeper, S: Sink, G: Gate + Sync>(
    rt: &R,
    alloc: Global,
    words: &[String],
    files: &mut F,
    keeper: &mut K,
    out: &mut S,
    gate: &G,
) -> Status
    // Where the words are a request, its work ends in one of the ways that its plan allows, and the
    // reply to that is put. Files or rows that the request doesn't need may tell nothing.
    ensures told { IfSome (request_of (texts words.now)) (λ request. EndsAndPuts
        (scene_for request
        (F.held files.old) (F.faults files.old) (K.rows keeper.old) (K.faults keeper.old))
        (scene_for request
        (F.held files.new) (F.faults files.new) (K.rows keeper.new) (K.faults keeper.new))
        (plan_of request)
        (S.taken out.old) (S.taken out.new) (S.faults out.old) (S.faults out.new) result) }

    // Where they are none, that is said, and nothing else is touched.
    ensures no_request { request_of (texts words.now) ≡ None
        → Puts (S.taken out.old) (S.taken out.new) (S.faults out.old) (S.faults out.new)
        no_request result }
    ensures untouched { request_of (texts words.now) ≡ None
        → scene (F.held files.new) (F.faults files.new) (K.rows keeper.new) (K.faults keeper.new)
        ≡ scene (F.held files.old) (F.faults files.old) (K.rows keeper.old) (K.faults keeper.old) }
    ensures words { result ≡ Status.Words → request_of (texts words.now) ≡ None }

    // Where the work is done, its change was made and its whole answer was put, which has its
    // meaning.
    ensures done { result ≡ Status.Done → IfSome (request_of (texts words.now)) (λ request. InWorld
        (scene_for request
        (F.held files.old) (F.faults files.old) (K.rows keeper.old) (K.faults keeper.old))
        (scene_for request
        (F.held files.new) (F.faults files.new) (K.rows keeper.new) (K.faults keeper.new))
        (λ before after. (plan : Plan) × (plan_of request before ≡ Ok plan)
        × (after ≡ changed plan.change before)
        × Grows (S.taken out.old) (S.taken out.new) plan.answer)) }
    ensures means { result ≡ Status.Done → IfSome (request_of (texts words.now)) (λ request. InWorld
        (scene_for request
        (F.held files.old) (F.faults files.old) (K.rows keeper.old) (K.faults keeper.old))
        (scene_for request
        (F.held files.new) (F.faults files.new) (K.rows keeper.new) (K.faults keeper.new))
        (λ before after. (answer : List ℕ) × Answers request before after answer
        × Grows (S.taken out.old) (S.taken out.new) answer)) }

    // Where nothing refuses a request and no count of faults rose, it is done, or memory lacks.
    ensures complete { (Rose (F.faults files.old) (F.faults files.new) → ⊥)
        → (Rose (K.faults keeper.old) (K.faults keeper.new) → ⊥)
        → (Rose (S.faults out.old) (S.faults out.new) → ⊥)
        → IfSome (request_of (texts words.now)) (λ request. InWorld
        (scene_for request
        (F.held files.old) (F.faults files.old) (K.rows keeper.old) (K.faults keeper.old))
        (scene_for request
        (F.held files.new) (F.faults files.new) (K.rows keeper.new) (K.faults keeper.new))
        (λ before after. (plan : Plan) → plan_of request before ≡ Ok plan
        → Completes before after plan (S.taken out.old) (S.taken out.new) result)) }

    // Where it is neither done nor failed, all is as it was. And at each status, of each object
    // by itself, be the other told or not: it is as one change leaves it.
    ensures same_files { result ≢ Status.Done → result ≢ Status.Outside
        → F.held files.new ≡ F.held files.old }
    ensures same_rows { result ≢ Status.Done → result ≢ Status.Outside
        → WhereTold (K.rows keeper.old) (K.rows keeper.new) (λ before after. after ≡ before) }
    ensures each { IfSome (request_of (texts words.now)) (λ request. (made : Result (Unit {0}) Stop)
        × EachLeft (needs_of request)
        (F.held files.old) (F.held files.new) (K.rows keeper.old) (K.rows keeper.new) made) }
    ensures each_done { result ≡ Status.Done → IfSome (request_of (texts words.now)) (λ request.
        EachLeft (needs_of request)
        (F.held files.old) (F.held files.new) (K.rows keeper.old) (K.rows keeper.new) (Ok tt)) }

    // Whatever becomes of a request, rows that were sound are sound.
    ensures sound { IfSome (request_of (texts words.now)) (λ request. InWorld
        (scene_for request
        (F.held files.old) (F.faults files.old) (K.rows keeper.old) (K.faults keeper.old))
        (scene_for request
        (F.held files.new) (F.faults files.new) (K.rows keeper.new) (K.faults keeper.new))
        (λ before after. AreSound before.rows → AreSound after.rows)) }

    // A fault comes exactly where a count rose, and no count falls.
    ensures outside { result ≡ Status.Outside
        → Rose (F.faults files.old) (F.faults files.new)
        ⊎ (Rose (K.faults keeper.old) (K.faults keeper.new)
        ⊎ Rose (S.faults out.old) (S.faults out.new)) }
    ensures quiet { result ≢ Status.Outside → (F.faults files.new ≡ F.faults files.old)
        × (K.faults keeper.new ≡ K.faults keeper.old) × (S.faults out.new ≡ S.faults out.old) }
    ensures later_files { F.faults files.old ≤ F.faults files.new }
    ensures later_keeper { K.faults keeper.old ≤ K.faults keeper.new }
    ensures later_sink { S.faults out.old ≤ S.faults out.new }
{
    match read_words(words) {
        None => put_no_request(out),
        Some(request) => {
            let ended = work(rt, alloc, files, keeper, &request, gate);
            put_reply(alloc, out, ended)
        }
    }
}
