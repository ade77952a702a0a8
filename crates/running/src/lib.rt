// 01, "Steps", Running an announcement; listing 5. The announcement is `a`, its request `request`: two parameters, as the
// definitions and the public contracts of `access` and `after` have them. Which step is taken is a match, as there.
#![tactic(auto)]

ghost use Rattle.std.specs.Prelude.{◌≡◌};
ghost use Rattle.running.specs.Running.{run_access, run_after, after_a2, after_a3, after_a6, size_at, walk_to, walk_by, back};

use access::Access;
use cells::{Head, Request, Tail};
use found::Found;
use place::{After, BatchStep, DequeueStep, DequeuesStep, EnqueueStep, Place, Resume, RunStep};
use tally::less;

#[tactic(auto, unfolding(crate::specs::Running::run_access))]
pub fn access(step: RunStep, a: u8, request: Request) -> Access
    ensures { result ≡ run_access a request step }
{
    match step {
        RunStep::A1 => Access::ReadTail,
        RunStep::A2(_) => Access::ReadOldTail { of: a },
        RunStep::A3(tail) => Access::CasLink {
            node: tail.node,
            to: request.first,
        },
        RunStep::A4(tail) => Access::WriteOldTail { of: a, tail },
        RunStep::A5(old) => Access::CasTail {
            was: old,
            to: old.past(request.last, request.tally.enqueues),
        },
        RunStep::A6 { at, .. } => Access::ReadLink { node: at },
        RunStep::A7 { rise, to } => Access::CasHead {
            was: Head::Announced(a),
            to: request.old_head.past(to, rise),
        },
        RunStep::A8(tail, next) => Access::CasTail {
            was: tail,
            to: tail.past(next, 1),
        },
    }
}

#[tactic(auto, unfolding(crate::specs::Running::run_after))]
pub fn after(step: RunStep, a: u8, found: Found, request: Request, resume: Resume) -> After
    ensures { result ≡ run_after a request resume step found }
{
    let next = match step {
        RunStep::A1 => RunStep::A2(found.tail()),
        RunStep::A2(tail) => after_a2(tail, found.old_tail()),
        RunStep::A3(tail) => after_a3(tail, found.link(), request.first),
        RunStep::A4(tail) => RunStep::A5(tail),
        RunStep::A5(old) => walk_to(request, old),
        RunStep::A6 { rise, at, left } => after_a6(rise, at, left, found.link()),
        RunStep::A7 { .. } => return back(resume, request),
        RunStep::A8(_, _) => RunStep::A1,
    };
    After::On(Place::Running(a, next, resume))
}

fn after_a2(tail: Tail, old: Option<Tail>) -> RunStep
    ensures { result ≡ after_a2 tail old }
{
    match old {
        None => RunStep::A3(tail),
        Some(set) => RunStep::A5(set),
    }
}

// Linked where the link found is none, so that the CAS was taken, or is the announcement's first node.
fn after_a3(tail: Tail, link: Option<u16>, first: u16) -> RunStep
    ensures { result ≡ after_a3 tail link first }
{
    match link {
        Some(next) if next != first => RunStep::A8(tail, next),
        _ => RunStep::A4(tail),
    }
}

// A walk that meets no link stops; no reachable machine comes there.
fn after_a6(rise: u32, at: u16, left: u32, link: Option<u16>) -> RunStep
    ensures { result ≡ after_a6 rise at left link }
{
    match link {
        None => RunStep::A7 { rise, to: at },
        Some(next) if left <= 1 => RunStep::A7 { rise, to: next },
        Some(next) => RunStep::A6 {
            rise,
            at: next,
            left: left - 1,
        },
    }
}

// After a5, where the old tail is known: how to find the new head. Request and old tail go on side by side, as in the
// definitions `walk_to`, `size_at` and `walk_by`.
pub fn walk_to(request: Request, old: Tail) -> RunStep
    ensures { result ≡ walk_to request old }
{
    let size = size_at(request, old);
    walk_by(request, old, size, request.tally.successful(size))
}

// The items that waited where the batch was linked: the old tail's count less the old head's.
fn size_at(request: Request, old: Tail) -> u32
    ensures { result ≡ size_at request old }
{
    less(old.count.0, request.old_head.count.0)
}

fn walk_by(request: Request, old: Tail, size: u32, rise: u32) -> RunStep
    ensures { result ≡ walk_by request old size rise }
{
    let front = request.old_head.node;
    if rise == 0 {
        return RunStep::A7 { rise, to: front };
    }
    if rise < size {
        return RunStep::A6 {
            rise,
            at: front,
            left: rise,
        };
    }
    if rise == size {
        return RunStep::A7 { rise, to: old.node };
    }
    RunStep::A6 {
        rise,
        at: old.node,
        left: less(rise, size),
    }
}

// Back to the call that met the announcement, or its end where the announcement was its own.
fn back(resume: Resume, request: Request) -> After
    ensures { result ≡ back request resume }
{
    match resume {
        Resume::Enqueue(node) => After::On(Place::Enqueue(node, EnqueueStep::E1)),
        Resume::Dequeue => After::On(Place::Dequeue(DequeueStep::D1)),
        Resume::Batch(own) => After::On(Place::Batch(own, BatchStep::B1)),
        Resume::Dequeues => After::On(Place::Dequeues(DequeuesStep::Q1)),
        Resume::Own => After::Pair {
            from: request.old_head.node,
        },
    }
}
