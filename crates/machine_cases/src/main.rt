//! Runs the machine over the scripts on standard input, and shows on a line of standard output what each
//! entry gave. What has to come out is worked out from 01 by tools/machine_cases.py, which also says what
//! stands on a line of the input and on one of the output.
#![tactic(auto)]

mod show;

use arrayvec::ArrayVec;
use entry::Entry;
use machine::Machine;
use output::Output;
use std::io::Write;

/// Room for an entry's line: 511 items take 11 bytes each at most, and what stands before them less than 100.
const ROOM: usize = 6000;

/// The machine, and the place of the next entry since its set-up.
#[derive(Clone, Copy)]
struct Session {
    machine: Machine,
    place: u32,
}

/// Takes no more of the input than 65,536 bytes. Entries before the first set-up have the smallest machine. Behind
/// the last line end no further line begins.
fn main() {
    let mut input = io::large_buffer();
    let count = io::read_full(0, &mut input);
    let mut text = ArrayVec::<u8, ROOM>::new();
    let mut session = Session {
        machine: Machine::fresh(1, 2),
        place: 0,
    };
    for line in input[..count].split_inclusive(|byte| *byte == b'\n') {
        let line = line.strip_suffix(b"\n").unwrap_or(line);
        let _ = session.run_line(line, &mut text, &mut Output);
    }
}

impl Session {
    /// A comment is shown as it stands. `text` is room for a line.
    fn run_line<W: Write>(
        &mut self,
        line: &[u8],
        text: &mut ArrayVec<u8, ROOM>,
        out: &mut W,
    ) -> std::io::Result<()> {
        if line.starts_with(b"#") {
            out.write_all(line)?;
            return writeln!(out, "");
        }
        let mut numbers = line.split(|byte| *byte == b' ').map(number);
        let code = numbers.next().unwrap_or(0);
        let first = numbers.next().unwrap_or(0);
        let second = numbers.next().unwrap_or(0);
        match entry_of(code, first, second) {
            Some(entry) => self.enter(entry, text, out),
            None => self.set_up(first, second, out),
        }
    }

    /// A new machine of the two numbers of the line, whatever they are; the one before where it is refused.
    fn set_up<W: Write>(&mut self, threads: u32, nodes: u32, out: &mut W) -> std::io::Result<()> {
        match set_up::of(threads, nodes) {
            Err(refusal) => writeln!(out, "refused {}", refusal.number()),
            Ok(machine) => {
                self.machine = machine;
                self.place = 0;
                writeln!(out, "machine {threads} {nodes}")
            }
        }
    }

    /// The entry's line is written at once. No input is long enough for the place to wrap.
    fn enter<W: Write>(
        &mut self,
        entry: Entry,
        text: &mut ArrayVec<u8, ROOM>,
        out: &mut W,
    ) -> std::io::Result<()> {
        let reply = self.machine.enter(entry);
        text.clear();
        show::entry(self.place, reply, &self.machine, entry.thread(), text)?;
        self.place = self.place.wrapping_add(1);
        out.write_all(text)
    }
}

fn number(word: &[u8]) -> u32 {
    script::number(word, u64::from(u32::MAX)) as u32
}

/// By the scripts' own table, where 0 is a set-up: a slip in that of schedules must not hide here. No script has a code above 7.
/// The second operand counts where the code has one.
fn entry_of(code: u32, thread: u32, operand: u32) -> Option<Entry> {
    match code {
        0 => None,
        1 => Some(Entry::Enqueue {
            thread,
            item: operand,
        }),
        2 => Some(Entry::Dequeue { thread }),
        3 => Some(Entry::FutureEnqueue {
            thread,
            item: operand,
        }),
        4 => Some(Entry::FutureDequeue { thread }),
        5 => Some(Entry::Evaluate {
            thread,
            future: operand,
        }),
        6 => Some(Entry::Step { thread }),
        _ => Some(Entry::Run {
            thread,
            steps: operand,
        }),
    }
}
