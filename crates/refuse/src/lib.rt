// The tests of 01's refusal table, 1 to 8, in its order. Nothing has changed when one is given.
#![tactic(auto)]

ghost use Rattle.std.specs.Prelude.{◌≡◌};
ghost use Rattle.refuse.specs.Refusals.{callable, steppable, foreign, own_verdict, tested, verdict};

use answer::Future;
use entry::Entry;
use next::Used;
use place::Place;
use refusal::Refusal;
use row::Row;

// Refusals 1 and 2: the thread is there, and idle. This and `steppable` are two and no generic one: the definitions of both names
// are two rows of the table, and one function would be told which it is and ask it again.
fn callable(thread: u32, threads: u32, place: Place) -> Result<(), Refusal>
    ensures { result ≡ callable thread threads place }
{
    if threads <= thread {
        return Err(Refusal::NoSuchThread);
    }
    if place.is_idle() {
        return Ok(());
    }
    Err(Refusal::InCall)
}

// Refusals 1 and 3: the thread is there, and in a call.
fn steppable(thread: u32, threads: u32, place: Place) -> Result<(), Refusal>
    ensures { result ≡ steppable thread threads place }
{
    if threads <= thread {
        return Err(Refusal::NoSuchThread);
    }
    if place.is_idle() {
        return Err(Refusal::NotInCall);
    }
    Ok(())
}

// Refusal 8: the future was not handed out, or belongs to another thread.
fn foreign(future: u32, owner: u8, used: u32, thread: u32) -> bool
    ensures { result ≡ foreign future owner used thread }
{
    used <= future || u32::from(owner) != thread
}

// Evaluate of an idle thread: 8, then what its batch lacks where the future is not done.
fn own_verdict(
    thread: u32,
    future: u32,
    used: u32,
    asked: Future,
    lacking: Result<(), Refusal>,
) -> Result<(), Refusal>
    ensures { result ≡ own_verdict thread future used asked lacking }
{
    if foreign(future, asked.owner, used, thread) {
        return Err(Refusal::NotOwnFuture);
    }
    match asked.outcome {
        None => lacking,
        Some(_) => Ok(()),
    }
}

// The tests in 01's order: 1, then 2 or 3, then 8, then what the entry lacks. `used` counts the futures handed
// out.
fn tested(
    entry: Entry,
    threads: u32,
    place: Place,
    used: u32,
    asked: Future,
    lacking: Result<(), Refusal>,
) -> Result<(), Refusal>
    ensures { result ≡ tested entry threads place used asked lacking }
{
    let thread = entry.thread();
    match entry {
        Entry::Enqueue { .. }
        | Entry::Dequeue { .. }
        | Entry::FutureEnqueue { .. }
        | Entry::FutureDequeue { .. } => {
            callable(thread, threads, place)?;
            lacking
        }
        Entry::Evaluate { future, .. } => {
            callable(thread, threads, place)?;
            own_verdict(thread, future, used, asked, lacking)
        }
        Entry::Step { .. } | Entry::Run { .. } => steppable(thread, threads, place),
    }
}

// Whether an entry is refused, on a machine of some threads and nodes, each by itself, as the public contract has them: `row` is
// its thread's, `asked` the future that it names.
#[tactic(auto, unfolding(crate::specs::Refusals::verdict))]
pub fn verdict(
    entry: Entry,
    threads: u32,
    nodes: u32,
    used: Used,
    row: Row,
    asked: Future,
) -> Result<(), Refusal>
    ensures { result ≡ verdict entry threads nodes used row asked }
{
    let needs = needs::of(entry, row);
    let lacking = needs.lacking(used, nodes, row.count);
    tested(entry, threads, row.place, used.futures, asked, lacking)
}
