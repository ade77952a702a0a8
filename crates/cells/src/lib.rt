// The cells of shared memory: the head, the tail, for each node a link, which is the node linked behind it
// where there is one, and for each announcement an old tail, which is there once it is written. What never
// changes after the entry that made it (a batch's first and last node, its tally) stands beside them.
#![tactic(auto)]

ghost use Rattle.std.specs.Prelude.{◌≡◌};
ghost use Rattle.cells.specs.Ends.{past_tail, past_front, same_tail, same_head};

use tally::Tally;

// The enqueue count stands beside the tail, the dequeue count beside the head; they are never mixed.
#[derive(Clone, Copy, PartialEq, Eq, Default)]
pub struct EnqueueCount(pub u32);

#[derive(Clone, Copy, PartialEq, Eq, Default)]
pub struct DequeueCount(pub u32);

#[derive(Clone, Copy, PartialEq, Eq, Default)]
pub struct Tail {
    pub node: u16,
    pub count: EnqueueCount,
}

// The head as it is while no announcement is in it.
#[derive(Clone, Copy, PartialEq, Eq, Default)]
pub struct Front {
    pub node: u16,
    pub count: DequeueCount,
}

#[derive(Clone, Copy, PartialEq, Eq)]
pub enum Head {
    Plain(Front),
    Announced(u8),
}

#[derive(Clone, Copy, PartialEq, Eq)]
pub struct Ends {
    pub head: Head,
    pub tail: Tail,
}

// What a batch asks for, and the head that its announcement was laid over. The old head is written at
// b2, before anybody else can see the announcement, and stays while anybody may run it.
#[derive(Clone, Copy, PartialEq, Eq, Default)]
pub struct Request {
    pub first: u16,
    pub last: u16,
    pub tally: Tally,
    pub old_head: Front,
}

#[derive(Clone, Copy, PartialEq, Eq, Default)]
pub struct Announcement {
    pub request: Request,
    pub old_tail: Option<Tail>,
}

impl Announcement {
    pub const ANNOUNCEMENTS: u8 = 64;
}

impl Tail {
    pub const NODES: u16 = 512;

    // The tail at another node, its count gone up. `Front` has the like: the two counts are never mixed, and a
    // trait of both with its two impls is longer than the two methods.
    pub fn past(self, node: u16, by: u32) -> Tail
        ensures { result ≡ past_tail self node by }
    {
        Tail {
            node,
            count: EnqueueCount(self.count.0.wrapping_add(by)),
        }
    }

    // Whether a CAS of the tail that expects `other` is taken: `==`, by the name that its public promise has; so is the head's.
    pub fn same(self, other: Tail) -> bool
        ensures { result ≡ same_tail self other }
    {
        self == other
    }
}

impl Front {
    // The head at another node, its count gone up.
    pub fn past(self, node: u16, by: u32) -> Front
        ensures { result ≡ past_front self node by }
    {
        Front {
            node,
            count: DequeueCount(self.count.0.wrapping_add(by)),
        }
    }
}

impl Head {
    // Whether a CAS of the head that expects `expected` is taken.
    pub fn same(self, expected: Head) -> bool
        ensures { result ≡ same_head self expected }
    {
        self == expected
    }
}
