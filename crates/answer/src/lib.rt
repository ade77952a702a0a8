// What is handed over: items, the outcomes of futures, and the answers of entries.
#![tactic(auto)]

ghost use Rattle.std.specs.Prelude.{◌≡◌};
ghost use Rattle.answer.specs.Answer.{answered, value};

use refusal::Refusal;

#[derive(Clone, Copy, Debug, Default, PartialEq, Eq)]
pub struct Item {
    pub value: u32,
}

// The result of a call: an enqueue's, a dequeue's that got an item, and that of one that found none.
#[derive(Clone, Copy, Debug, PartialEq, Eq)]
pub enum CallResult {
    Ok,
    Item(Item),
    Empty,
}

// Which of the two calls one is.
#[derive(Clone, Copy, Debug, PartialEq, Eq)]
pub enum Operation {
    Dequeue,
    Enqueue,
}

// A deferred call: the thread that made it, which call it is, and its result once it is done.
#[derive(Clone, Copy)]
pub struct Future {
    pub owner: u8,
    pub operation: Operation,
    pub outcome: Option<CallResult>,
}

// What an accepted entry answers; a call that ends answers its result.
#[derive(Clone, Copy, Debug, PartialEq, Eq)]
pub enum Answer {
    Started,
    Future(u32),
    Ended(CallResult),
    More,
}

impl Future {
    pub const FUTURES: u16 = 512;

    // The answer that gives its result.
    pub fn answer(self) -> Answer
        ensures { result ≡ answered self.outcome }
    {
        outcome_answer(self.outcome)
    }
}

impl Answer {
    // The number beside the answer's word: the future or the item; 0 where none is, as the listing's column has it.
    pub fn value(self) -> u32
        ensures { result ≡ value (Ok self) }
    {
        match self {
            Answer::Future(future) => future,
            Answer::Ended(CallResult::Item(item)) => item.value,
            Answer::Started | Answer::Ended(_) | Answer::More => 0,
        }
    }
}

// The answer that gives what a future holds. A future that a batch's end leaves waiting would answer Empty; there is
// none in a machine that entries reach.
pub fn outcome_answer(outcome: Option<CallResult>) -> Answer
    ensures { result ≡ answered outcome }
{
    Answer::Ended(outcome.unwrap_or(CallResult::Empty))
}

// The number beside the word of what an entry is told: its answer's, or the refusal's.
pub fn told_value(told: Result<Answer, Refusal>) -> u32
    ensures { result ≡ value told }
{
    match told {
        Ok(answer) => answer.value(),
        Err(refusal) => refusal.number(),
    }
}
