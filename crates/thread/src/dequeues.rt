// 01, "Steps", Batch of dequeues only; listing 7.
ghost use Rattle.std.specs.Prelude.{◌≡◌};
ghost use Rattle.thread.specs.Dequeues.{dequeues_access, dequeues_after, stopped, one_further, goes_to, after_q1, after_q2, after_q3};

use crate::met::met;
use access::Access;
use cells::Head;
use found::Found;
use place::{After, DequeuesStep, Place, Resume, Walk};

#[tactic(auto, unfolding(crate::specs::Dequeues::dequeues_access))]
pub(crate) fn access(step: DequeuesStep) -> Access
    ensures { result ≡ dequeues_access step }
{
    match step {
        DequeuesStep::Q1 => Access::ReadHead,
        DequeuesStep::Q2(walk) => Access::ReadLink { node: walk.at },
        DequeuesStep::Q3(walk) => Access::CasHead {
            was: Head::Plain(walk.front),
            to: walk.front.past(walk.at, walk.taken),
        },
    }
}

#[tactic(auto, unfolding(crate::specs::Dequeues::dequeues_after))]
pub(crate) fn after(step: DequeuesStep, found: Found, pending: u32) -> After
    ensures { result ≡ dequeues_after step found pending }
{
    match step {
        DequeuesStep::Q1 => after_q1(found.head()),
        DequeuesStep::Q2(walk) => after_q2(walk, found.link(), pending),
        DequeuesStep::Q3(walk) => after_q3(walk, found.taken()),
    }
}

fn after_q1(head: Head) -> After
    ensures { result ≡ after_q1 head }
{
    met(head, Resume::Dequeues, |front| {
        Place::Dequeues(DequeuesStep::Q2(Walk {
            front,
            at: front.node,
            taken: 0,
        }))
    })
}

fn after_q2(walk: Walk, link: Option<u16>, pending: u32) -> After
    ensures { result ≡ after_q2 walk link pending }
{
    match link {
        None => stopped(walk),
        Some(next) => on(walk, next, pending),
    }
}

fn after_q3(walk: Walk, taken: bool) -> After
    ensures { result ≡ after_q3 walk taken }
{
    if taken {
        return After::PairDequeues {
            from: walk.front.node,
            taken: walk.taken,
        };
    }
    After::On(Place::Dequeues(DequeuesStep::Q1))
}

// No node behind the one reached: the batch ends where none was found at all.
fn stopped(walk: Walk) -> After
    ensures { result ≡ stopped walk }
{
    if walk.taken == 0 {
        return After::PairDequeues {
            from: walk.front.node,
            taken: 0,
        };
    }
    After::On(Place::Dequeues(DequeuesStep::Q3(walk)))
}

// One node further.
fn on(walk: Walk, next: u16, pending: u32) -> After
    ensures { result ≡ goes_to (one_further walk next) pending }
{
    let further = Walk {
        at: next,
        taken: walk.taken.wrapping_add(1),
        ..walk
    };
    goes_to(further, pending)
}

// q2 again while another dequeue is pending.
fn goes_to(walk: Walk, pending: u32) -> After
    ensures { result ≡ goes_to walk pending }
{
    if walk.taken < pending {
        return After::On(Place::Dequeues(DequeuesStep::Q2(walk)));
    }
    After::On(Place::Dequeues(DequeuesStep::Q3(walk)))
}
