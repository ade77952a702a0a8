// The refusals of document 01, "Refusal numbers". An entry, a reader or a writer that refuses names
// one of these; the number that a listing shows for it is decided here and nowhere else.
#![tactic(auto)]

ghost use Rattle.std.specs.Prelude.{◌≡◌};
ghost use Rattle.refusal.specs.Numbers.{number_of};

#[derive(Clone, Copy, Debug, PartialEq, Eq)]
pub enum Refusal {
    // The thread is not below the thread count.
    NoSuchThread,
    // An entry that begins or defers a call, and the thread is in a call.
    InCall,
    // A Step or a Run, and the thread is idle.
    NotInCall,
    // A node is needed and none is left.
    NoNode,
    // A future is needed and none is left.
    NoFuture,
    // A pending place is needed and the thread has as many as it may have.
    NoPendingPlace,
    // The call sets off a batch with an enqueue and no announcement is left.
    NoAnnouncement,
    // The future was not handed out, or belongs to another thread.
    NotOwnFuture,
    // The thread or the node number at set-up is out of range.
    SetupOutOfRange,
    // The bytes end inside a number, the set-up or an entry.
    CutShort,
    // A number is too long: a last group of zero after another group, or a fifth byte above 15.
    TooLong,
    // The code is not one of the entries'.
    NoSuchCode,
    // The writer's buffer is too short.
    NoRoom,
}

impl Refusal {
    // The number that 01's table gives to the refusal: the table itself, and no discriminants.
    pub fn number(self) -> u32
        ensures { result ≡ number_of self }
    {
        match self {
            Refusal::NoSuchThread => 1,
            Refusal::InCall => 2,
            Refusal::NotInCall => 3,
            Refusal::NoNode => 4,
            Refusal::NoFuture => 5,
            Refusal::NoPendingPlace => 6,
            Refusal::NoAnnouncement => 7,
            Refusal::NotOwnFuture => 8,
            Refusal::SetupOutOfRange => 9,
            Refusal::CutShort => 10,
            Refusal::TooLong => 11,
            Refusal::NoSuchCode => 12,
            Refusal::NoRoom => 13,
        }
    }
}
