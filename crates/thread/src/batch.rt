// 01, "Steps", Batch with an enqueue; listing 4. The announcement handed out to the call is `own`.
ghost use Rattle.std.specs.Prelude.{◌≡◌};
ghost use Rattle.thread.specs.Batch.{batch_access, batch_after, after_b1, after_b2};

use crate::met::met;
use access::Access;
use cells::Head;
use found::Found;
use place::{After, BatchStep, Place, Resume, RunStep};

#[tactic(auto, unfolding(crate::specs::Batch::batch_access))]
pub(crate) fn access(step: BatchStep, own: u8) -> Access
    ensures { result ≡ batch_access own step }
{
    match step {
        BatchStep::B1 => Access::ReadHead,
        BatchStep::B2(front) => Access::Announce { own, was: front },
    }
}

#[tactic(auto, unfolding(crate::specs::Batch::batch_after))]
pub(crate) fn after(step: BatchStep, own: u8, found: Found) -> After
    ensures { result ≡ batch_after own step found }
{
    match step {
        BatchStep::B1 => after_b1(own, found.head()),
        BatchStep::B2(_) => after_b2(own, found.taken()),
    }
}

fn after_b1(own: u8, head: Head) -> After
    ensures { result ≡ after_b1 own head }
{
    met(head, Resume::Batch(own), |front| {
        Place::Batch(own, BatchStep::B2(front))
    })
}

fn after_b2(own: u8, taken: bool) -> After
    ensures { result ≡ after_b2 own taken }
{
    if taken {
        return After::On(Place::Running(own, RunStep::A1, Resume::Own));
    }
    After::On(Place::Batch(own, BatchStep::B1))
}
