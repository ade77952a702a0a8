//! Showing what an entry gave.
use machine::{Machine, Reply};
use place::{BatchStep, DequeueStep, DequeuesStep, EnqueueStep, Place, RunStep};
use std::io::{Result, Write};

/// The line of an entry at a place as in a listing, and behind it the step that the entry's thread would take next,
/// and the contents.
pub(crate) fn entry<W: Write>(
    place: u32,
    reply: Reply,
    machine: &Machine,
    thread: u32,
    out: &mut W,
) -> Result<()> {
    let depth = contents::depth_of(machine);
    let line = line::entry(place, reply.answer, reply.steps, depth);
    let end = line.count.saturating_sub(1);
    out.write_all(line.bytes.get(..end).unwrap_or(b""))?;
    write!(out, " {} |", step_of(machine, thread))?;
    items(machine, out)?;
    writeln!(out, "")
}

/// Each item with a blank in front, oldest first. `contents::write_to` is lent an array, in which they find room: a machine has
/// fewer than 512.
fn items<W: Write>(machine: &Machine, out: &mut W) -> Result<()> {
    let mut items = [0u32; 512];
    match contents::write_to(machine, &mut items) {
        Ok(count) => {
            for item in items.iter().take(count) {
                write!(out, " {item}")?;
            }
            Ok(())
        }
        Err(_) => write!(out, " no room"),
    }
}

/// The step that a thread would take next, by its letter and digit; `none` where there is no such thread. A match: each kind of
/// call has steps of a type of its own.
fn step_of(machine: &Machine, thread: u32) -> &'static str {
    if machine.threads <= thread {
        return "none";
    }
    match machine.rows.get(thread as usize) {
        Some(row) => name_of(row.place),
        None => "none",
    }
}

fn name_of(place: Place) -> &'static str {
    match place {
        Place::Idle => "idle",
        Place::Enqueue(_, step) => enqueue_name(step),
        Place::Dequeue(step) => dequeue_name(step),
        Place::Batch(_, step) => batch_name(step),
        Place::Dequeues(step) => dequeues_name(step),
        Place::Running(_, step, _) => run_name(step),
    }
}

/// Names and no `Display`: the steps are enums of another crate, each with names of its own.
fn enqueue_name(step: EnqueueStep) -> &'static str {
    match step {
        EnqueueStep::E1 => "e1",
        EnqueueStep::E2(_) => "e2",
        EnqueueStep::E3(_) => "e3",
        EnqueueStep::E4(_, _) => "e4",
        EnqueueStep::E5(_, _) => "e5",
    }
}

fn dequeue_name(step: DequeueStep) -> &'static str {
    match step {
        DequeueStep::D1 => "d1",
        DequeueStep::D2(_) => "d2",
        DequeueStep::D3(_, _) => "d3",
    }
}

fn batch_name(step: BatchStep) -> &'static str {
    match step {
        BatchStep::B1 => "b1",
        BatchStep::B2(_) => "b2",
    }
}

fn dequeues_name(step: DequeuesStep) -> &'static str {
    match step {
        DequeuesStep::Q1 => "q1",
        DequeuesStep::Q2(_) => "q2",
        DequeuesStep::Q3(_) => "q3",
    }
}

fn run_name(step: RunStep) -> &'static str {
    match step {
        RunStep::A1 => "a1",
        RunStep::A2(_) => "a2",
        RunStep::A3(_) => "a3",
        RunStep::A4(_) => "a4",
        RunStep::A5(_) => "a5",
        RunStep::A6 { .. } => "a6",
        RunStep::A7 { .. } => "a7",
        RunStep::A8(_, _) => "a8",
    }
}
