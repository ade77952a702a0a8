// What an access found, and what a step goes on with.
#![tactic(auto)]

ghost use Rattle.std.specs.Prelude.{◌≡◌};
ghost use Rattle.found.specs.Found.{head_in, tail_in, link_in, old_tail_in, taken_in};

use cells::{Head, Tail};

// The value read; the link that a CAS of a link found, so that none means taken; whether another CAS was
// taken.
#[derive(Clone, Copy)]
pub enum Found {
    Head(Head),
    Tail(Tail),
    Link(Option<u16>),
    OldTail(Option<Tail>),
    Taken(bool),
}

// Each answers a value of no meaning where another kind of access was made: a step asks only for what its own
// access finds. The contracts say which value, so an `Option` would promise something else.
impl Found {
    pub fn head(self) -> Head
        ensures { result ≡ head_in self }
    {
        match self {
            Found::Head(head) => head,
            _ => Head::Announced(0),
        }
    }

    pub fn tail(self) -> Tail
        ensures { result ≡ tail_in self }
    {
        match self {
            Found::Tail(tail) => tail,
            _ => Tail::default(),
        }
    }

    pub fn link(self) -> Option<u16>
        ensures { result ≡ link_in self }
    {
        match self {
            Found::Link(link) => link,
            _ => None,
        }
    }

    pub fn old_tail(self) -> Option<Tail>
        ensures { result ≡ old_tail_in self }
    {
        match self {
            Found::OldTail(old) => old,
            _ => None,
        }
    }

    pub fn taken(self) -> bool
        ensures { result ≡ taken_in self }
    {
        match self {
            Found::Taken(taken) => taken,
            _ => false,
        }
    }
}
