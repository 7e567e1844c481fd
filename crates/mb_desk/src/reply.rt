//! Putting the reply.
ghost use Rattle.std.specs.Prelude.{Err};
ghost use Rattle.mb_desk.specs.Reply.{MayReply, Puts, Reply, no_request};
ghost use Rattle.mb_desk.specs.declared.plans.Stop.TheVariants.{Refused};

use crate::plans::Stop;
use crate::refusals::Refusal;
use crate::status::Status;
use mb_outside::Sink;
use mb_registry::Body;
use std::alloc::Global;

/// Puts a text whole and answers the status, or `Outside` where the put failed.
fn put<S: Sink>(out: &mut S, text: &[u8], status: Status) -> Status
    ensures put { Puts (S.taken out.old) (S.taken out.new) (S.faults out.old) (S.faults out.new)
        (record { status = status; text = text.now }) result }
{
    match out.put(text) {
        Ok(()) => status,
        Err(_) => Status::Outside,
    }
}

/// Puts the line of words that are no request. It takes no memory.
pub fn put_no_request<S: Sink>(out: &mut S) -> Status
    ensures put { Puts (S.taken out.old) (S.taken out.new) (S.faults out.old) (S.faults out.new)
        no_request result }
{
    put(out, b"refused Words\n", Status::Words)
}

/// Puts the line of a refusal, or that of want of memory where there is none for the line.
fn put_refusal<S: Sink>(alloc: Global, out: &mut S, refusal: Refusal) -> Status
    ensures put { (reply : Reply) × MayReply (Err (Refused refusal)) reply
        × Puts (S.taken out.old) (S.taken out.new) (S.faults out.old) (S.faults out.new)
        reply result }
{
    match refusal.line(alloc) {
        Ok(line) => put(out, line.as_slice(), refusal.status()),
        Err(_) => put(out, b"refused Memory\n", Status::Memory),
    }
}

/// Puts the reply to how the work ended.
pub fn put_reply<S: Sink>(alloc: Global, out: &mut S, ended: Result<Body, Stop>) -> Status
    ensures put { (reply : Reply) × MayReply ended reply
        × Puts (S.taken out.old) (S.taken out.new) (S.faults out.old) (S.faults out.new)
        reply result }
{
    match ended {
        Ok(answer) => put(out, answer.as_slice(), Status::Done),
        Err(Stop::Memory) => put(out, b"refused Memory\n", Status::Memory),
        Err(Stop::Outside) => put(out, b"refused Outside\n", Status::Outside),
        Err(Stop::Refused(refusal)) => put_refusal(alloc, out, refusal),
    }
}
