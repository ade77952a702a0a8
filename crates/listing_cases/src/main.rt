//! Lists the schedules on standard input through the crates listing and line, and writes their listings to
//! standard output. What has to come out is worked out from 01 by tools/listing_cases.py, which also says what
//! stands on a line of the input.
#![tactic(auto)]

mod show;
mod words;

use arrayvec::ArrayVec;
use output::Output;
use std::io::Write;
use words::ROOM;

/// Takes no more of the input than 65,536 bytes. An empty line is a schedule, that of no bytes; behind the last
/// line end no further line begins.
fn main() {
    let mut input = io::large_buffer();
    let count = io::read_full(0, &mut input);
    for line in input[..count].split_inclusive(|byte| *byte == b'\n') {
        let line = line.strip_suffix(b"\n").unwrap_or(line);
        let _ = run_line(line, &mut Output);
    }
}

/// A comment is shown as it stands. The first word of a line of a long schedule tells from which entry's place on
/// its lines are shown; sums speak for the others.
fn run_line<W: Write>(line: &[u8], out: &mut W) -> std::io::Result<()> {
    if line.starts_with(b"#") {
        out.write_all(line)?;
        return writeln!(out, "");
    }
    let mut bytes = ArrayVec::<u8, ROOM>::new();
    let Some(long) = line.strip_prefix(b"*") else {
        words::put(line, &mut bytes);
        show::listing(&bytes, 0, out)?;
        return Ok(());
    };
    let mut parts = long.splitn(2, |byte| *byte == b' ');
    let shown = words::leading_number(parts.next().unwrap_or(b""));
    words::put(parts.next().unwrap_or(b""), &mut bytes);
    let sums = show::listing(&bytes, shown, out)?;
    writeln!(out, "* {sums}")
}
