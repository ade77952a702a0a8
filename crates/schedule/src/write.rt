// Writing: the set-up, and one entry, at the start of a lent buffer. Only the bytes written change, and a
// refusal changes none.
ghost use Rattle.std.specs.Prelude.{◌≡◌, ◌+◌, ◌≤◌, ◌++◌, cond, eqb, length};
ghost use Rattle.numbers.specs.Write.{groups_of};
ghost use Rattle.schedule.specs.Codes.{operands, number_of};
ghost use Rattle.schedule.specs.Write.{set_up_writing, set_up_written, entry_writing, entry_written};

use crate::code::Code;
use arrayvec::ArrayVec;
use refusal::Refusal;

// Puts a number's bytes behind those so far. There is no heap: `numbers::write` is lent an array.
#[tactic(auto, using(lent::proofs::Laws::writing_fits, numbers::proofs::WrittenGroups::few_bytes))]
fn push(bytes: &mut ArrayVec<u8, 15>, n: u32)
    requires { length bytes.old.items + 5 ≤ 15 }
    ensures bytes { bytes.new.items ≡ bytes.old.items ++ groups_of n }
    ensures few { length bytes.new.items ≤ length bytes.old.items + 5 }
{
    let mut groups = [0u8; 5];
    let count = numbers::write(&mut groups, n).unwrap();
    bytes.try_extend_from_slice(&groups[..count]).unwrap();
}

// Puts an entry's second operand behind those so far, where the code has one. A function of its own: the proof of `entry` then
// names no branch of the code.
fn push_second(bytes: &mut ArrayVec<u8, 15>, entry: Code, second: u32)
    requires { length bytes.old.items + 5 ≤ 15 }
    ensures { bytes.new.items ≡ cond (eqb (operands (number_of entry)) 2) (bytes.old.items ++ groups_of second) bytes.old.items }
{
    if entry.has_second() {
        push(bytes, second);
    }
}

// Writes a set-up. Refused: 9, then 13. Two plain numbers: the contract is of any two.
pub fn set_up(buf: &mut [u8], threads: u32, nodes: u32) -> Result<usize, Refusal>
    ensures { (result ≡ set_up_writing threads nodes buf.old) × (buf.new ≡ set_up_written threads nodes buf.old) }
{
    entry::in_range(threads, nodes)?;
    let mut bytes = ArrayVec::new();
    push(&mut bytes, threads);
    push(&mut bytes, nodes);
    lent::put(buf, &bytes)
}

// Writes an entry: its code, its thread, and its second operand where the code has one. Refused: 12, then
// 13. The code is a number and no `Code`: 12 is promised of every other number (`entry_writing`).
#[tactic(auto, using(crate::proofs::Codes::code_read, crate::proofs::Codes::code_refused, crate::proofs::Codes::bytes_by_second))]
pub fn entry(buf: &mut [u8], code: u32, thread: u32, second: u32) -> Result<usize, Refusal>
    ensures { (result ≡ entry_writing code thread second buf.old) × (buf.new ≡ entry_written code thread second buf.old) }
{
    let entry = Code::try_from(code)?;
    let mut bytes = ArrayVec::new();
    push(&mut bytes, code);
    push(&mut bytes, thread);
    push_second(&mut bytes, entry, second);
    lent::put(buf, &bytes)
}
