// The entries of 01, and the numbers that a set-up may have.
#![tactic(auto)]

ghost use Rattle.std.specs.Prelude.{◌≡◌};
ghost use Rattle.entry.specs.Operands.{thread_of, future_of};
ghost use Rattle.entry.specs.Range.{in_range};

use refusal::Refusal;

// An entry with its operands, as 01's table has them.
#[derive(Clone, Copy)]
pub enum Entry {
    Enqueue { thread: u32, item: u32 },
    Dequeue { thread: u32 },
    FutureEnqueue { thread: u32, item: u32 },
    FutureDequeue { thread: u32 },
    Evaluate { thread: u32, future: u32 },
    Step { thread: u32 },
    Run { thread: u32, steps: u32 },
}

impl Entry {
    pub const THREADS: u32 = 8;

    pub const NODES: u32 = 512;

    pub fn thread(self) -> u32
        ensures { result ≡ thread_of self }
    {
        match self {
            Entry::Enqueue { thread, .. }
            | Entry::Dequeue { thread }
            | Entry::FutureEnqueue { thread, .. }
            | Entry::FutureDequeue { thread }
            | Entry::Evaluate { thread, .. }
            | Entry::Step { thread }
            | Entry::Run { thread, .. } => thread,
        }
    }

    // The future that Evaluate names; the others name none, and answer 0, as the contract says, which an `Option` would not
    // keep.
    pub fn future(self) -> u32
        ensures { result ≡ future_of self }
    {
        match self {
            Entry::Evaluate { future, .. } => future,
            _ => 0,
        }
    }
}

// Refusal 9: a set-up has 1 to 8 threads and 2 to 512 nodes, the dummy among them. Two plain numbers here and wherever a
// set-up is asked for: a type of good ones alone would ask more of callers.
pub fn in_range(threads: u32, nodes: u32) -> Result<(), Refusal>
    ensures { result ≡ in_range threads nodes }
{
    if (1..=Entry::THREADS).contains(&threads) && (2..=Entry::NODES).contains(&nodes) {
        Ok(())
    } else {
        Err(Refusal::SetupOutOfRange)
    }
}
