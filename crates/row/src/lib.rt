// One thread's row: its place, its pending calls and their tally, and the batch's nodes.
#![tactic(auto)]

ghost use Rattle.std.specs.Prelude.{◌≡◌};
ghost use Rattle.row.specs.Row.{fresh_row, placed, calling, pushed, with_enqueue, with_dequeue, cleared, request};

use cells::{Front, Request};
use place::Place;
use tally::Tally;

// Pending calls are held by their futures, in calling order; `count` of them. `first` and `last` are the
// nodes of the first and the last pending enqueue, and count only where the tally has one: plain numbers, as
// in the definitions. `future` is the future whose result ends the batch's call: the one named in Evaluate,
// or the single call's own. The pending calls are an array and a count and no vector: `with_enqueue` and
// `with_dequeue` are defined for a full row too, whose count goes beyond the array.
#[derive(Clone, Copy)]
pub struct Row {
    pub place: Place,
    pub pending: [u16; 32],
    pub count: u32,
    pub tally: Tally,
    pub first: u16,
    pub last: u16,
    pub future: u16,
}

impl Row {
    pub const PENDING: u32 = 32;

    // As many counts of pending calls as there can be, none among them.
    pub const COUNTS: u32 = 33;

    // Idle, with nothing pending: public, so by its name and not as a `Default`.
    pub fn fresh() -> Row
        ensures { result ≡ fresh_row }
    {
        Row {
            place: Place::Idle,
            pending: [0u16; 32],
            count: 0,
            tally: Tally::none(),
            first: 0,
            last: 0,
            future: 0,
        }
    }

    // The methods by value stand beside those in place, which do the work: their promises may not go.
    pub fn at(mut self, place: Place) -> Row
        ensures { result ≡ placed self place }
    {
        self.place = place;
        self
    }

    // Sets off a batch's call, whose answer will be the result of a future.
    pub fn call(&mut self, place: Place, future: u16)
        ensures { self.new ≡ calling self.old place future }
    {
        self.place = place;
        self.future = future;
    }

    // In a batch's call, whose answer will be the result of a future.
    pub fn calling(mut self, place: Place, future: u16) -> Row
        ensures { result ≡ calling self place future }
    {
        self.call(place, future);
        self
    }

    // One more pending enqueue.
    pub fn push_enqueue(&mut self, future: u16, node: u16)
        ensures { self.new ≡ with_enqueue self.old future node }
    {
        if self.tally.enqueues == 0 {
            self.first = node;
        }
        self.last = node;
        self.push(future);
        self.tally.note_enqueue();
    }

    // The row with one more pending enqueue.
    pub fn with_enqueue(mut self, future: u16, node: u16) -> Row
        ensures { result ≡ with_enqueue self future node }
    {
        self.push_enqueue(future, node);
        self
    }

    // One more pending dequeue.
    pub fn push_dequeue(&mut self, future: u16)
        ensures { self.new ≡ with_dequeue self.old future }
    {
        self.push(future);
        self.tally.note_dequeue();
    }

    // The row with one more pending dequeue.
    pub fn with_dequeue(mut self, future: u16) -> Row
        ensures { result ≡ with_dequeue self future }
    {
        self.push_dequeue(future);
        self
    }

    // One more pending call. The remainder makes it total: that a place is left is tested before.
    fn push(&mut self, future: u16)
        ensures { self.new ≡ pushed self.old future }
    {
        self.pending[(self.count % Row::PENDING) as usize] = future;
        self.count = self.count.wrapping_add(1);
    }

    // The call over: idle, the pending list and the tally cleared.
    pub fn clear(&mut self)
        ensures { self.new ≡ cleared self.old }
    {
        self.place = Place::Idle;
        self.count = 0;
        self.tally = Tally::none();
    }

    // The row with the call over.
    pub fn cleared(mut self) -> Row
        ensures { result ≡ cleared self }
    {
        self.clear();
        self
    }

    // What an announcement of the pending calls asks for. Its old head is set at b2.
    pub fn request(self) -> Request
        ensures { result ≡ request self }
    {
        Request {
            first: self.first,
            last: self.last,
            tally: self.tally,
            old_head: Front::default(),
        }
    }
}
