// What an entry has to be handed out, and 01's refusals 4 to 7: something that it needs is not left.
#![tactic(auto)]

ghost use Rattle.std.specs.Prelude.{◌≡◌};
ghost use Rattle.needs.specs.Needs.{left, lacking, needs_of};

use entry::Entry;
use next::Used;
use refusal::Refusal;
use row::Row;

// A future goes with a pending place. Each of the three may be needed with or without the others, so they are no enum.
#[derive(Clone, Copy, Debug, Default, PartialEq, Eq)]
pub struct Needs {
    pub node: bool,
    pub future: bool,
    pub announcement: bool,
}

// Of any entry; of Evaluate, where its future is not done. A call that sets off a batch needs an
// announcement only where an enqueue is in it; Enqueue itself is one.
pub fn of(entry: Entry, row: Row) -> Needs
    ensures { result ≡ needs_of entry row }
{
    let pending = row.count != 0;
    let enqueues = row.tally.enqueues != 0;
    let nothing = Needs::default();
    match entry {
        Entry::Enqueue { .. } => Needs {
            node: true,
            future: pending,
            announcement: pending,
        },
        Entry::Dequeue { .. } => Needs {
            future: pending,
            announcement: enqueues,
            ..nothing
        },
        Entry::FutureEnqueue { .. } => Needs {
            node: true,
            future: true,
            ..nothing
        },
        Entry::FutureDequeue { .. } => Needs {
            future: true,
            ..nothing
        },
        Entry::Evaluate { .. } => Needs {
            announcement: enqueues,
            ..nothing
        },
        Entry::Step { .. } | Entry::Run { .. } => nothing,
    }
}

// Refused where something is needed and all that there are have been handed out.
fn left(needed: bool, used: u32, all: u32, refusal: Refusal) -> Result<(), Refusal>
    ensures { result ≡ left needed used all refusal }
{
    if needed && all <= used {
        Err(refusal)
    } else {
        Ok(())
    }
}

impl Needs {
    // Refusals 4 to 7, in that order; `nodes` is the machine's number of nodes, `pending` the thread's count.
    pub fn lacking(self, used: Used, nodes: u32, pending: u32) -> Result<(), Refusal>
        ensures { result ≡ lacking self used nodes pending }
    {
        left(self.node, used.nodes, nodes, Refusal::NoNode)?;
        left(self.future, used.futures, Used::FUTURES, Refusal::NoFuture)?;
        left(self.future, pending, Row::PENDING, Refusal::NoPendingPlace)?;
        left(
            self.announcement,
            used.announcements,
            Used::ANNOUNCEMENTS,
            Refusal::NoAnnouncement,
        )
    }
}
