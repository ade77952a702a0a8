// The codes of 01's table of entries, as a schedule has them.
ghost use Rattle.std.specs.Prelude.{◌≡◌, eqb};
ghost use Rattle.schedule.specs.Codes.{operands, entry_of, code_at, number_of};

use entry::Entry;
use refusal::Refusal;

// Which entry a code stands for.
#[derive(Clone, Copy, Debug, PartialEq, Eq)]
pub(crate) enum Code {
    Enqueue,
    Dequeue,
    FutureEnqueue,
    FutureDequeue,
    Evaluate,
    Step,
    Run,
}

// Refused 12: the number is not one of the entries' codes.
impl TryFrom<u32> for Code {
    type Error = Refusal;

    ghost try_from_gives = { λ number result. result ≡ code_at number };

    #[tactic(auto, unfolding(crate::specs::Codes::code_at))]
    fn try_from(number: u32) -> Result<Code, Refusal> {
        match number {
            1 => Ok(Code::Enqueue),
            2 => Ok(Code::Dequeue),
            3 => Ok(Code::FutureEnqueue),
            4 => Ok(Code::FutureDequeue),
            5 => Ok(Code::Evaluate),
            6 => Ok(Code::Step),
            7 => Ok(Code::Run),
            _ => Err(Refusal::NoSuchCode),
        }
    }
}

impl Code {
    // Whether a second operand follows the thread.
    #[tactic(auto, unfolding(crate::specs::Codes::operands))]
    pub(crate) fn has_second(self) -> bool
        ensures { result ≡ eqb (operands (number_of self)) 2 }
    {
        matches!(
            self,
            Code::Enqueue | Code::FutureEnqueue | Code::Evaluate | Code::Run
        )
    }

    // The entry with these operands; `second` counts where the code has a second one.
    #[tactic(auto, unfolding(crate::specs::Codes::entry_of))]
    pub(crate) fn entry(self, thread: u32, second: u32) -> Entry
        ensures { result ≡ entry_of (number_of self) thread second }
    {
        match self {
            Code::Enqueue => Entry::Enqueue {
                thread,
                item: second,
            },
            Code::Dequeue => Entry::Dequeue { thread },
            Code::FutureEnqueue => Entry::FutureEnqueue {
                thread,
                item: second,
            },
            Code::FutureDequeue => Entry::FutureDequeue { thread },
            Code::Evaluate => Entry::Evaluate {
                thread,
                future: second,
            },
            Code::Step => Entry::Step { thread },
            Code::Run => Entry::Run {
                thread,
                steps: second,
            },
        }
    }
}
