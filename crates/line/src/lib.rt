// The lines of a listing as text (01, "Schedule bytes and listing"): the set-up's, an entry's, and that of
// what the queue holds. Which lines a schedule gets is the crate listing's.
#![tactic(auto)]

mod text;

ghost use Rattle.std.specs.Prelude.{◌≡◌, ◌≤◌, length, take};
ghost use Rattle.lent.specs.Lent.{writing, written};
ghost use Rattle.contents.specs.Contents.{contents};
ghost use Rattle.line.specs.Text.{word_field, set_up_text, refused_text, first_text, entry_text, queue_text};
ghost use Rattle.line.specs.Line.{line_of};

use answer::{Answer, CallResult};
use machine::Machine;
use refusal::Refusal;
use text::Text;

// A line by value: its text from the start, zeros behind; an array and a count, as `line_of` has them, which the public
// contracts name.
#[derive(Clone, Copy)]
pub struct Line {
    pub bytes: [u8; Line::BYTES],
    pub count: usize,
}

impl Line {
    // Room for any line but that of what the queue holds.
    pub const BYTES: usize = 64;

    #[tactic(auto, unfolding(crate::specs::Line::line_of), using(lent::proofs::Laws::writing_fits))]
    fn of(text: &Text<64>) -> Line
        requires { length text.now.so_far.bytes ≤ 64 }
        ensures { result ≡ line_of text.now.so_far.bytes }
    {
        let mut bytes = [0u8; Line::BYTES];
        let count = text.put(&mut bytes).unwrap();
        Line { bytes, count }
    }
}

// The set-up's line, or the one that says why it is refused.
#[tactic(auto, unfolding(crate::specs::Line::line_of))]
pub fn first(made: Result<Machine, Refusal>) -> Line
    ensures { result ≡ line_of (first_text made) }
{
    match made {
        Ok(machine) => set_up(machine.threads, machine.nodes),
        Err(refusal) => refused(refusal),
    }
}

// Two numbers, as `set_up_text` takes them.
#[tactic(auto, unfolding(crate::specs::Text::set_up_text))]
fn set_up(threads: u32, nodes: u32) -> Line
    ensures { result ≡ line_of (set_up_text threads nodes) }
{
    let mut text = Text::new();
    text.word("bq");
    text.field(threads);
    text.field(nodes);
    text.word("\n");
    Line::of(&text)
}

#[tactic(auto, unfolding(crate::specs::Text::refused_text))]
fn refused(refusal: Refusal) -> Line
    ensures { result ≡ line_of (refused_text refusal) }
{
    let mut text = Text::new();
    text.word("refused");
    text.field(refusal.number());
    text.word("\n");
    Line::of(&text)
}

// The line of the entry at a place: the answer's word and value, the steps taken, the depth after it.
#[tactic(auto, unfolding(crate::specs::Text::entry_text))]
pub fn entry(place: u32, answer: Result<Answer, Refusal>, steps: u32, depth: u32) -> Line
    ensures { result ≡ line_of (entry_text place answer steps depth) }
{
    let mut text = Text::new();
    text.number(place);
    text.word(word(answer));
    text.field(answer::told_value(answer));
    text.field(steps);
    text.field(depth);
    text.word("\n");
    Line::of(&text)
}

// The answer's word with a blank in front.
fn word(answer: Result<Answer, Refusal>) -> &'static str
    ensures text { result.now ≡ word_field answer }
    ensures few { length result.now ≤ 8 }
{
    match answer {
        Ok(Answer::Started) => " started",
        Ok(Answer::Future(_)) => " future",
        Ok(Answer::Ended(CallResult::Ok)) => " ok",
        Ok(Answer::Ended(CallResult::Item(_))) => " item",
        Ok(Answer::Ended(CallResult::Empty)) => " empty",
        Ok(Answer::More) => " more",
        Err(_) => " refused",
    }
}

// Room for the longest line of what the queue holds.
const QUEUE: usize = 5640;

// Writes the line of what the queue holds. Refused, and out left as it is: NoRoom. There is no heap: `contents::write_to` is
// lent an array for the items.
#[tactic(auto, using(crate::proofs::Items::contents_few, crate::proofs::Items::taken, lent::proofs::Laws::writing_fits))]
pub fn queue(machine: Machine, out: &mut [u8]) -> Result<usize, Refusal>
    ensures { (result ≡ writing (queue_text (contents machine)) out.old) × (out.new ≡ written (queue_text (contents machine)) out.old) }
{
    let mut items = [0u32; Machine::NODES];
    let count = contents::write_to(&machine, &mut items).unwrap();
    queue_of(&items[..count], out)
}

#[tactic(auto, unfolding(crate::specs::Text::queue_text))]
fn queue_of(items: &[u32], out: &mut [u8]) -> Result<usize, Refusal>
    requires { length items.now ≤ 512 }
    ensures { (result ≡ writing (queue_text items.now) out.old) × (out.new ≡ written (queue_text items.now) out.old) }
{
    let mut text = Text::<QUEUE>::new();
    text.word("queue");
    text.fields(items);
    text.word("\n");
    text.put(out)
}
