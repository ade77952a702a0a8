// A thread's place among the rows.
ghost use Rattle.std.specs.Prelude.{◌≡◌, ◌<◌, ◌%◌};

use entry::Entry;

// The number of a row, which is below how many rows there are.
#[derive(Clone, Copy)]
pub(crate) struct Seat {
    pub number: usize,
    ghost within: { number < 8 },
}

impl Seat {
    // The remainder makes it total: an entry for a thread that is not there is refused.
    pub(crate) fn of(thread: u32) -> Seat
        ensures { result.number ≡ thread % 8 }
    {
        Seat {
            number: (thread % Entry::THREADS) as usize,
        }
    }
}
