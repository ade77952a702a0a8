// 01, "Steps", Dequeue; listings 2 and 3.
ghost use Rattle.std.specs.Prelude.{◌≡◌};
ghost use Rattle.thread.specs.Dequeue.{dequeue_access, dequeue_after, after_d1, after_d2, after_d3};

use crate::met::met;
use access::Access;
use cells::{Front, Head};
use found::Found;
use place::{After, DequeueStep, Place, Resume};

#[tactic(auto, unfolding(crate::specs::Dequeue::dequeue_access))]
pub(crate) fn access(step: DequeueStep) -> Access
    ensures { result ≡ dequeue_access step }
{
    match step {
        DequeueStep::D1 => Access::ReadHead,
        DequeueStep::D2(front) => Access::ReadLink { node: front.node },
        DequeueStep::D3(front, next) => Access::CasHead {
            was: Head::Plain(front),
            to: front.past(next, 1),
        },
    }
}

#[tactic(auto, unfolding(crate::specs::Dequeue::dequeue_after))]
pub(crate) fn after(step: DequeueStep, found: Found) -> After
    ensures { result ≡ dequeue_after step found }
{
    match step {
        DequeueStep::D1 => after_d1(found.head()),
        DequeueStep::D2(front) => after_d2(front, found.link()),
        DequeueStep::D3(_, next) => after_d3(next, found.taken()),
    }
}

fn after_d1(head: Head) -> After
    ensures { result ≡ after_d1 head }
{
    met(
        head,
        Resume::Dequeue,
        |front| Place::Dequeue(DequeueStep::D2(front)),
    )
}

fn after_d2(front: Front, link: Option<u16>) -> After
    ensures { result ≡ after_d2 front link }
{
    match link {
        None => After::Empty,
        Some(next) => After::On(Place::Dequeue(DequeueStep::D3(front, next))),
    }
}

fn after_d3(next: u16, taken: bool) -> After
    ensures { result ≡ after_d3 next taken }
{
    if taken {
        return After::Item(next);
    }
    After::On(Place::Dequeue(DequeueStep::D1))
}
