// Numbers as schedules have them (01, "Schedule bytes and listing"): groups of seven bits, low group
// first, the top bit set when another follows; below 2^32, in at most five bytes, and in one way only.
#![tactic(auto)]

ghost use Rattle.std.specs.Prelude.{◌≡◌, ◌+◌, ◌≤◌, ◌<◌, ◌^◌, length, take, drop};
ghost use Rattle.numbers.specs.Read.{number_at, following, before, last_group, value_of};
ghost use Rattle.numbers.specs.Write.{groups_of};
ghost use Rattle.lent.specs.Lent.{writing, written};

use arrayvec::ArrayVec;
use refusal::Refusal;

// A number that was read, and the place after it.
#[derive(Clone, Copy, Debug, PartialEq, Eq)]
pub struct Number {
    pub value: u32,
    pub next: usize,
}

// The number that stands in s at a place. Refused: CutShort where s ends before the number does (or
// before the place), TooLong where the last group is a needless zero or the fifth byte is above 15.
#[tactic(auto, using(crate::proofs::GroupByGroup::reading))]
pub fn read(s: &[u8], from: usize) -> Result<Number, Refusal>
    ensures { result ≡ number_at s.now from }
{
    if s.len() <= from {
        return Err(Refusal::CutShort);
    }
    let group = s[from];
    if group < 128 {
        return Ok(Number {
            value: u32::from(group),
            next: from + 1,
        });
    }
    behind(group, read_following(s, from + 1, 3))
}

// By recursion, as the definition goes, at most four deep: a loop would have to keep the groups that stand before.
// The value of the groups from a place on that stand behind another; `left` more may follow the next.
#[tactic(auto, using(crate::proofs::GroupByGroup::reading))]
fn read_following(s: &[u8], at: usize, left: u32) -> Result<Number, Refusal>
    requires { left ≤ 3 }
    ensures { result ≡ following left at (drop at s.now) }
{
    if s.len() <= at {
        return Err(Refusal::CutShort);
    }
    let group = s[at];
    if left == 0 {
        if 15 < group {
            return Err(Refusal::TooLong);
        }
        return last(group, at);
    }
    if group < 128 {
        return last(group, at);
    }
    behind(group, read_following(s, at + 1, left - 1))
}

// The last group, behind another one: zero there would be a second way to write the number. A group and its place, as
// `last_group` takes them.
#[tactic(auto, unfolding(crate::specs::Read::last_group))]
fn last(group: u8, at: usize) -> Result<Number, Refusal>
    requires { at + 1 < 2 ^ 64 }
    ensures { result ≡ last_group at group }
{
    if group == 0 {
        return Err(Refusal::TooLong);
    }
    Ok(Number {
        value: u32::from(group),
        next: at + 1,
    })
}

// A group that others follow, in front of what those were read as.
#[tactic(auto, unfolding(crate::specs::Read::before))]
fn behind(group: u8, rest: Result<Number, Refusal>) -> Result<Number, Refusal>
    requires le_group { 128 ≤ group }
    requires rest_bound { value_of rest < 2 ^ 25 }
    ensures { result ≡ before group rest }
{
    let number = rest?;
    Ok(Number {
        value: u32::from(group - 128) + 128 * number.value,
        next: number.next,
    })
}

// Writes n at the start of buf. Refused, and buf left as it is: NoRoom where the bytes do not fit.
pub fn write(buf: &mut [u8], n: u32) -> Result<usize, Refusal>
    ensures { (result ≡ writing (groups_of n) buf.old) × (buf.new ≡ written (groups_of n) buf.old) }
{
    lent::put(buf, &groups_of(n))
}

// How many bytes n takes.
pub fn count(n: u32) -> usize
    ensures { result ≡ length (groups_of n) }
{
    groups_of(n).len()
}

// By division, so by no index and no range.
fn groups_of(n: u32) -> ArrayVec<u8, 5>
    ensures { result.items ≡ groups_of n }
{
    let mut groups = ArrayVec::new();
    let mut rest = n;
    while 128 <= rest {
        groups.push((128 + rest % 128) as u8);
        rest /= 128;
    }
    groups.push(rest as u8);
    groups
}
