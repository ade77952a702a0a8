// The result of one pending call: listing 6 for a batch with an enqueue, listing 8 for one of dequeues only.
#![tactic(auto)]

ghost use Rattle.std.specs.Prelude.{◌≡◌};
ghost use Rattle.pairing.specs.Pairing.{node_behind, next_of, pay, pay_batch, pay_dequeues};

use answer::{CallResult, Item, Operation};

// What the listings keep beside the current head: listing 6 the node of the next enqueue and whether no
// dequeue can succeed any more, listing 8 how many are still to succeed. The first two are variables of the listing, each
// with any value of the other.
#[derive(Clone, Copy)]
pub enum Supply {
    Batch { next: Option<u16>, none_left: bool },
    Dequeues { left: u32 },
}

// The current head, and what stands beside it.
#[derive(Clone, Copy)]
pub struct Cursor {
    pub at: u16,
    pub supply: Supply,
}

// The result of one call, and the cursor behind it.
#[derive(Clone, Copy)]
pub struct Paid {
    pub result: CallResult,
    pub cursor: Cursor,
}

// What one turn of the pairing reads: the link behind the current head, the node that it leads to with its
// item, the link behind the next enqueue's node, and the batch's last node.
#[derive(Clone, Copy)]
pub struct Around {
    pub behind: Option<u16>,
    pub node: u16,
    pub item: Item,
    pub behind_next: Option<u16>,
    pub last: u16,
}

// The node that a link leads to; where there is none, `at`, as the definition says, which no reachable machine comes to.
pub fn node_behind(link: Option<u16>, at: u16) -> u16
    ensures { result ≡ node_behind link at }
{
    link.unwrap_or(at)
}

impl Cursor {
    // The node of the next enqueue; 0 where there is none, as the contract says.
    pub fn next_node(self) -> u16
        ensures { result ≡ next_of self.supply }
    {
        match self.supply {
            Supply::Batch { next, .. } => node_behind(next, 0),
            Supply::Dequeues { .. } => 0,
        }
    }

    // The result of a pending enqueue or dequeue.
    pub fn pay(self, operation: Operation, around: Around) -> Paid
        ensures { result ≡ pay self.at self.supply operation around }
    {
        match self.supply {
            Supply::Batch { next, none_left } => pay_batch(
                self.at, next, none_left, operation, around,
            ),
            Supply::Dequeues { left } => pay_dequeues(self.at, left, around),
        }
    }
}

// Listing 6, lines 79 to 90, with its two variables side by side, as the definition `pay_batch` takes them.
fn pay_batch(
    at: u16,
    next: Option<u16>,
    none_left: bool,
    operation: Operation,
    around: Around,
) -> Paid
    ensures { result ≡ pay_batch at next none_left operation around }
{
    if operation == Operation::Enqueue {
        return Paid {
            result: CallResult::Ok,
            cursor: Cursor {
                at,
                supply: Supply::Batch {
                    next: around.behind_next,
                    none_left,
                },
            },
        };
    }
    if none_left || around.behind == next {
        return nothing(at, Supply::Batch { next, none_left });
    }
    Paid {
        result: CallResult::Item(around.item),
        cursor: Cursor {
            at: around.node,
            supply: Supply::Batch {
                next,
                none_left: around.node == around.last,
            },
        },
    }
}

// Listing 8, lines 110 to 118.
fn pay_dequeues(at: u16, left: u32, around: Around) -> Paid
    ensures { result ≡ pay_dequeues at left around }
{
    if left == 0 {
        return nothing(at, Supply::Dequeues { left });
    }
    Paid {
        result: CallResult::Item(around.item),
        cursor: Cursor {
            at: around.node,
            supply: Supply::Dequeues { left: left - 1 },
        },
    }
}

// A dequeue that found nothing.
fn nothing(at: u16, supply: Supply) -> Paid
    ensures { result ≡ record { result = CallResult.Empty; cursor = record { at = at; supply = supply } } }
{
    Paid {
        result: CallResult::Empty,
        cursor: Cursor { at, supply },
    }
}
