// A fresh machine.
ghost use Rattle.std.specs.Prelude.{◌≡◌};
ghost use Rattle.machine.specs.State.{fresh_machine};

use crate::Machine;
use answer::{Future, Item, Operation};
use cells::{Announcement, Ends, Front, Head, Tail};
use next::Used;
use row::Row;

impl Machine {
    // One dummy node, number 0, at which head and tail point; both counts zero; every thread idle, with
    // nothing pending. Two plain numbers: the contract is of any two.
    pub fn fresh(threads: u32, nodes: u32) -> Machine
        ensures { result ≡ fresh_machine threads nodes }
    {
        let nothing = Future {
            owner: 0,
            operation: Operation::Dequeue,
            outcome: None,
        };
        Machine {
            ends: Ends {
                head: Head::Plain(Front::default()),
                tail: Tail::default(),
            },
            links: [None; Machine::NODES],
            announcements: [Announcement::default(); Machine::ANNOUNCEMENTS],
            items: [Item::default(); Machine::NODES],
            futures: [nothing; Machine::FUTURES],
            rows: [Row::fresh(); Machine::THREADS],
            threads,
            nodes,
            used: Used {
                nodes: 1,
                futures: 0,
                announcements: 0,
            },
        }
    }
}
