// 01, "Steps", Enqueue; listing 1. The node handed out to the call is `node`.
ghost use Rattle.std.specs.Prelude.{◌≡◌};
ghost use Rattle.thread.specs.Enqueue.{enqueue_access, enqueue_after, after_e2, after_e4};

use crate::met::met;
use access::Access;
use cells::{Head, Tail};
use found::Found;
use place::{After, EnqueueStep, Place, Resume};

#[tactic(auto, unfolding(crate::specs::Enqueue::enqueue_access))]
pub(crate) fn access(step: EnqueueStep, node: u16) -> Access
    ensures { result ≡ enqueue_access node step }
{
    match step {
        EnqueueStep::E1 => Access::ReadTail,
        EnqueueStep::E2(tail) => Access::CasLink {
            node: tail.node,
            to: node,
        },
        EnqueueStep::E3(tail) => Access::CasTail {
            was: tail,
            to: tail.past(node, 1),
        },
        EnqueueStep::E4(_, _) => Access::ReadHead,
        EnqueueStep::E5(tail, next) => Access::CasTail {
            was: tail,
            to: tail.past(next, 1),
        },
    }
}

#[tactic(auto, unfolding(crate::specs::Enqueue::enqueue_after))]
pub(crate) fn after(step: EnqueueStep, node: u16, found: Found) -> After
    ensures { result ≡ enqueue_after node step found }
{
    match step {
        EnqueueStep::E1 => After::On(Place::Enqueue(node, EnqueueStep::E2(found.tail()))),
        EnqueueStep::E2(tail) => after_e2(node, tail, found.link()),
        EnqueueStep::E3(_) => After::Ok,
        EnqueueStep::E4(tail, next) => after_e4(node, tail, next, found.head()),
        EnqueueStep::E5(_, _) => After::On(Place::Enqueue(node, EnqueueStep::E1)),
    }
}

// Taken where the link found is none.
fn after_e2(node: u16, tail: Tail, link: Option<u16>) -> After
    ensures { result ≡ after_e2 node tail link }
{
    match link {
        None => After::On(Place::Enqueue(node, EnqueueStep::E3(tail))),
        Some(next) => After::On(Place::Enqueue(node, EnqueueStep::E4(tail, next))),
    }
}

fn after_e4(node: u16, tail: Tail, next: u16, head: Head) -> After
    ensures { result ≡ after_e4 node tail next head }
{
    met(head, Resume::Enqueue(node), |_| {
        Place::Enqueue(node, EnqueueStep::E5(tail, next))
    })
}
