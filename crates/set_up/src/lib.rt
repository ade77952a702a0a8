// Set-up (01, "What the machine is"): a fresh machine of the numbers asked for, or refusal 9.
#![tactic(auto)]

ghost use Rattle.std.specs.Prelude.{◌≡◌};
ghost use Rattle.set_up.specs.SetUp.{set_up, set_up_with_verdict};

use machine::Machine;
use refusal::Refusal;

// A machine and its set-up's verdict. It stands beside `of` since its promise covers refused numbers too: the fresh machine of
// these two stands beside the refusal. The machine counts only where the set-up is accepted.
#[derive(Clone, Copy)]
pub struct SetUp {
    pub verdict: Result<(), Refusal>,
    pub machine: Machine,
}

impl SetUp {
    // A fresh machine of any two numbers, and whether they are 1 to 8 threads and 2 to 512 nodes. Refused: SetupOutOfRange.
    pub fn of(threads: u32, nodes: u32) -> SetUp
        ensures { result ≡ set_up_with_verdict threads nodes }
    {
        SetUp {
            verdict: entry::in_range(threads, nodes),
            machine: Machine::fresh(threads, nodes),
        }
    }
}

// A fresh machine for 1 to 8 threads and 2 to 512 nodes. Refused: SetupOutOfRange. Two plain numbers: the contract is of any two.
pub fn of(threads: u32, nodes: u32) -> Result<Machine, Refusal>
    ensures { result ≡ set_up threads nodes }
{
    entry::in_range(threads, nodes)?;
    Ok(Machine::fresh(threads, nodes))
}
