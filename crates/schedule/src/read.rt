// Reading: the set-up, and one entry at a place. The first offending place decides.
ghost use Rattle.std.specs.Prelude.{◌≡◌, ◌≤◌, IsErr, IfErr, Err};
ghost use Rattle.schedule.specs.Codes.{number_of};
ghost use Rattle.schedule.specs.Read.{set_up_of, second_at, operands_at, some_entry_at, entry_at};

use crate::code::Code;
use entry::Entry;
use numbers::Number;
use refusal::Refusal;

// A schedule's set-up, and the place behind it.
#[derive(Clone, Copy, Debug, PartialEq, Eq)]
pub struct SetUp {
    pub threads: u32,
    pub nodes: u32,
    pub next: usize,
}

// An entry, and the count of bytes that it took.
#[derive(Clone, Copy)]
pub struct ReadEntry {
    pub entry: Entry,
    pub count: usize,
}

// A number that is refused, as what was to be read with it. Each number's answer is taken apart by `let .. else` and the refusal
// handed up, which is the form that the rules name for this reader.
fn refused<A>(number: Result<Number, Refusal>) -> Result<A, Refusal>
    requires { IsErr number }
    ensures { IfErr number (λ r. result ≡ Err r) }
{
    Err(number.unwrap_err())
}

// The set-up at the start of s. Refused: 10, 11 as its numbers are; 9 where both have read well.
#[tactic(auto, unfolding(crate::specs::Read::set_up_of))]
pub fn set_up(s: &[u8]) -> Result<SetUp, Refusal>
    ensures { result ≡ set_up_of s.now }
{
    let first = numbers::read(s, 0);
    let Ok(threads) = first else {
        return refused(first);
    };
    let second = numbers::read(s, threads.next);
    let Ok(nodes) = second else {
        return refused(second);
    };
    entry::in_range(threads.value, nodes.value)?;
    Ok(SetUp {
        threads: threads.value,
        nodes: nodes.value,
        next: nodes.next,
    })
}

// The entry at a place of s. None where no byte is left there; refused: 12 as soon as the code is read,
// 10, 11 as its numbers are.
#[tactic(auto, unfolding(crate::specs::Read::entry_at))]
pub fn entry(s: &[u8], from: usize) -> Option<Result<ReadEntry, Refusal>>
    ensures { result ≡ entry_at s.now from }
{
    if s.len() <= from {
        return None;
    }
    Some(some_entry(s, from))
}

#[tactic(auto, unfolding(crate::specs::Read::some_entry_at), using(numbers::proofs::Within::reads_on, crate::proofs::Codes::code_read, crate::proofs::Codes::code_refused))]
fn some_entry(s: &[u8], from: usize) -> Result<ReadEntry, Refusal>
    ensures { result ≡ some_entry_at s.now from }
{
    let first = numbers::read(s, from);
    let Ok(number) = first else {
        return refused(first);
    };
    let code = Code::try_from(number.value)?;
    operands(s, from, code, number.next)
}

// An entry that began at `from`, from its first operand on, which is the thread.
#[tactic(auto, unfolding(crate::specs::Read::operands_at), using(numbers::proofs::Within::reads_on))]
fn operands(s: &[u8], from: usize, code: Code, at: usize) -> Result<ReadEntry, Refusal>
    requires { from ≤ at }
    ensures { result ≡ operands_at s.now from (number_of code) at }
{
    let first = numbers::read(s, at);
    let Ok(thread) = first else {
        return refused(first);
    };
    let last = second(s, code, thread.next);
    let Ok(operand) = last else {
        return refused(last);
    };
    Ok(ReadEntry {
        entry: code.entry(thread.value, operand.value),
        count: operand.next - from,
    })
}

// The second operand where the code has one; else 0, as the definition `second_at` has it, and no byte is read.
fn second(s: &[u8], code: Code, at: usize) -> Result<Number, Refusal>
    ensures { result ≡ second_at s.now (number_of code) at }
{
    if code.has_second() {
        numbers::read(s, at)
    } else {
        Ok(Number { value: 0, next: at })
    }
}
