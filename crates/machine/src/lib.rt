// The machine of 01: threads, nodes, futures and announcements, advanced by entries. `enter` advances it in
// place and gives one answer, `apply` takes the machine and hands it back beside the answer; none can fail,
// and a refused one changes nothing.
//
// Numbers that the machine holds are plain numbers, so the code stays defined for every machine: an index
// is taken by its remainder, a count goes up with wrap and down to 0. No machine that entries reach from
// fresh meets one of these.
#![tactic(auto)]

pub mod engine;
pub mod entries;
pub mod fresh;
pub mod hand_out;
pub mod pair;
pub mod seat;

ghost use Rattle.std.specs.Prelude.{◌≡◌, Ok};

use answer::{Answer, Future, Item};
use cells::{Announcement, Ends};
use next::Used;
use refusal::Refusal;
use row::Row;

// Arrays of fixed sizes and no heap. `links` and `items` stand apart since a CAS reaches a link alone, and the definitions of
// the chain and of its items take them apart; `nodes` and `used` are numbers of the rules, not lengths of the arrays.
// `links` and `items` by node, `announcements` and `futures` by their numbers, `rows` by thread. `threads`
// and `nodes` are the numbers of the set-up.
#[derive(Clone, Copy)]
pub struct Machine {
    pub ends: Ends,
    pub links: [Option<u16>; Machine::NODES],
    pub announcements: [Announcement; Machine::ANNOUNCEMENTS],
    pub items: [Item; Machine::NODES],
    pub futures: [Future; Machine::FUTURES],
    pub rows: [Row; Machine::THREADS],
    pub threads: u32,
    pub nodes: u32,
    pub used: Used,
}

// The answer of an entry, and the steps that it took.
#[derive(Clone, Copy)]
pub struct Reply {
    pub answer: Result<Answer, Refusal>,
    pub steps: u32,
}

// The machine after an entry, its answer, and the steps that it took.
#[derive(Clone, Copy)]
pub struct Told {
    pub machine: Machine,
    pub answer: Result<Answer, Refusal>,
    pub steps: u32,
}

impl Reply {
    pub(crate) fn of(answer: Answer, steps: u32) -> Reply
        ensures { result ≡ record { answer = Ok answer; steps = steps } }
    {
        Reply {
            answer: Ok(answer),
            steps,
        }
    }
}

impl Machine {
    pub const THREADS: usize = 8;

    pub const NODES: usize = 512;

    pub const FUTURES: usize = 512;

    pub const ANNOUNCEMENTS: usize = 64;
}
