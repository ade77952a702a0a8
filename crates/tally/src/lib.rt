// The tally of a thread's pending calls: three counters from which anybody who runs the batch can
// tell at once how many of its dequeues succeed (document 002, section 5.2). Each is 32 bits wide
// and wraps; a thread has at most 32 pending calls, so no counter that a machine keeps comes there.
#![tactic(auto)]

ghost use Rattle.std.specs.Prelude.{◌≡◌, ◌-◌, max};
ghost use Rattle.tally.specs.Tally.{nothing_pending, with_enqueue, with_dequeue, successful_on};

#[derive(Clone, Copy, PartialEq, Eq, Debug, Default)]
pub struct Tally {
    pub enqueues: u32,
    pub dequeues: u32,
    pub excess: u32,
}

impl Tally {
    // The tally of a thread that has nothing pending: `default` by the name that its public promise has.
    pub fn none() -> Tally
        ensures { result ≡ nothing_pending }
    {
        Tally::default()
    }

    // One more enqueue is pending, behind the others: noted in the tally that is lent.
    pub fn note_enqueue(&mut self)
        ensures { self.new ≡ with_enqueue self.old }
    {
        self.enqueues = self.enqueues.wrapping_add(1);
    }

    // One more dequeue is pending, behind the others: noted in the tally that is lent. Its lead goes into the
    // excess where it is the larger.
    pub fn note_dequeue(&mut self)
        ensures { self.new ≡ with_dequeue self.old }
    {
        self.dequeues = self.dequeues.wrapping_add(1);
        self.excess = self.excess.max(less(self.dequeues, self.enqueues));
    }

    // The tally with one more enqueue noted in it: lent for that, and handed back. By value beside `note_enqueue`, as
    // `with_dequeue` beside `note_dequeue`: public promises, which may not go.
    pub fn with_enqueue(mut self) -> Tally
        ensures { result ≡ with_enqueue self }
    {
        self.note_enqueue();
        self
    }

    // The tally with one more dequeue noted in it: lent for that, and handed back.
    pub fn with_dequeue(mut self) -> Tally
        ensures { result ≡ with_dequeue self }
    {
        self.note_dequeue();
        self
    }

    // How many of the dequeues succeed where the batch is run on a queue of that size.
    pub fn successful(self, size: u32) -> u32
        ensures { result ≡ successful_on self size }
    {
        let failing = less(self.excess, size);
        less(self.dequeues, failing)
    }
}

// a less b, and 0 where b is the larger: as 01 takes a size from an excess, and counts from each other.
pub fn less(a: u32, b: u32) -> u32
    ensures { result ≡ a - b }
{
    a.saturating_sub(b)
}
