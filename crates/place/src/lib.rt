// A thread's place in its call (01, "Steps"): idle, or the step that comes next in one of the four kinds of
// call or in running an announcement, with what is remembered of the accesses before.
#![tactic(auto)]

ghost use Rattle.std.specs.Prelude.{◌≡◌, ◌<◌};
ghost use Rattle.place.specs.Place.{idle, announcement_run, place_after, goes_on};

use cells::{Announcement, Front, Tail};

// The step that comes next. An Enqueue holds its node, a batch with an enqueue its own announcement, and
// a thread that runs an announcement the call that it goes back to.
#[derive(Clone, Copy)]
pub enum Place {
    Idle,
    Enqueue(u16, EnqueueStep),
    Dequeue(DequeueStep),
    Batch(u8, BatchStep),
    Dequeues(DequeuesStep),
    Running(u8, RunStep, Resume),
}

// Enqueue, listing 1. From e2 on a step holds the tail that e1 read, from e4 on the node that e2 found
// behind it.
#[derive(Clone, Copy)]
pub enum EnqueueStep {
    E1,
    E2(Tail),
    E3(Tail),
    E4(Tail, u16),
    E5(Tail, u16),
}

// Dequeue, listings 2 and 3. From d2 on a step holds the head that d1 read, d3 the node that d2 read
// behind it.
#[derive(Clone, Copy)]
pub enum DequeueStep {
    D1,
    D2(Front),
    D3(Front, u16),
}

// Batch with an enqueue, listing 4. b2 holds the head that b1 read.
#[derive(Clone, Copy)]
pub enum BatchStep {
    B1,
    B2(Front),
}

// Batch of dequeues only, listing 7.
#[derive(Clone, Copy)]
pub enum DequeuesStep {
    Q1,
    Q2(Walk),
    Q3(Walk),
}

// The head that q1 read, the node reached from it, and how many nodes were found on the way.
#[derive(Clone, Copy)]
pub struct Walk {
    pub front: Front,
    pub at: u16,
    pub taken: u32,
}

// Running an announcement, listing 5. a2 to a4 and a8 hold the tail that a1 read, a8 the node that a3 found
// behind it, a5 the old tail. a6 and a7 hold by how much the dequeue count will rise; a6 the node reached and
// how many links are left to walk, a7 the node that the head will be set to.
#[derive(Clone, Copy)]
pub enum RunStep {
    A1,
    A2(Tail),
    A3(Tail),
    A4(Tail),
    A5(Tail),
    A6 { rise: u32, at: u16, left: u32 },
    A7 { rise: u32, to: u16 },
    A8(Tail, u16),
}

// The call resumed after a run. `Own`: the announcement was the call's own, and the call ends.
#[derive(Clone, Copy)]
pub enum Resume {
    Enqueue(u16),
    Dequeue,
    Batch(u8),
    Dequeues,
    Own,
}

// How a call goes on after a step, or how it ends: an enqueue; a dequeue that found nothing, or the item
// of a node; a batch, paired by listing 6 from the old head, or one of dequeues only, paired by listing 8
// with the nodes that it took.
#[derive(Clone, Copy)]
pub enum After {
    On(Place),
    Ok,
    Empty,
    Item(u16),
    Pair { from: u16 },
    PairDequeues { from: u16, taken: u32 },
}

impl Place {
    pub fn is_idle(self) -> bool
        ensures { result ≡ idle self }
    {
        matches!(self, Place::Idle)
    }

    // The announcement that is run; 0 where none is, as the contract says, which an `Option` would not keep. The
    // remainder makes it total; no reachable machine comes there.
    pub fn announcement(self) -> usize
        ensures { (result ≡ announcement_run self) × (result < 64) }
    {
        match self {
            Place::Running(a, _, _) => usize::from(a % Announcement::ANNOUNCEMENTS),
            _ => 0,
        }
    }
}

impl After {
    // The thread's place after the step: idle where the call ended.
    pub fn place(self) -> Place
        ensures { result ≡ place_after self }
    {
        match self {
            After::On(place) => place,
            _ => Place::Idle,
        }
    }

    pub fn goes_on(self) -> bool
        ensures { result ≡ goes_on self }
    {
        matches!(self, After::On(_))
    }
}
