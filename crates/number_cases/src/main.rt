//! Runs the number reader and writer over the cases on standard input, and shows on a line of standard
//! output what each of them gave. What has to come out is worked out from 01 by tools/number_cases.py.
//!
//! A line of the input is a comment that begins with '#', or a case: bytes in hex, a blank between two,
//! and in front of them '@', a place and a blank where the reading starts elsewhere than at 0.
#![tactic(auto)]

use arrayvec::{ArrayString, ArrayVec};
use numbers::Number;
use output::Output;
use refusal::Refusal;
use std::fmt;
use std::io::Write;

/// The writer's room: two bytes more than the longest number takes.
const ROOM: usize = 7;

/// Bytes in hex, a blank in front of each. The two digits of a byte are one piece, since a piece is a write.
#[derive(Clone, Copy, Drop)]
struct Hex<'a> {
    bytes: &'a [u8],
}

impl fmt::Display for Hex<'_> {
    fn fmt<W: fmt::Write>(&self, f: &mut fmt::Formatter<W>) -> fmt::Result {
        for byte in self.bytes {
            let mut digits = ArrayString::<2>::new();
            fmt::Write::write_fmt(&mut digits, format_args!("{byte:02x}"))?;
            write!(f, " {digits}")?;
        }
        Ok(())
    }
}

/// Takes no more of the input than 65,536 bytes. An empty line is a case, that of no bytes; behind the last line
/// end no further line begins.
fn main() {
    let mut input = io::large_buffer();
    let count = io::read_full(0, &mut input);
    for line in input[..count].split_inclusive(|byte| *byte == b'\n') {
        let line = line.strip_suffix(b"\n").unwrap_or(line);
        let _ = run_line(line, &mut Output);
    }
}

/// Shows nothing for a comment. Takes no more bytes of a case than 32, each from three places of the line: two
/// digits and the blank behind them.
fn run_line<W: Write>(line: &[u8], out: &mut W) -> std::io::Result<()> {
    if line.starts_with(b"#") {
        return Ok(());
    }
    let (place, digits) = start_of(line);
    let mut bytes = ArrayVec::<u8, 32>::new();
    bytes.extend(digits.chunks(3).take(32).map(script::byte))?;
    run_case(&bytes, place, out)
}

/// Where a case is read, and what tells its bytes: place 0 and the whole line where the line names no place, else
/// what stands behind the first blank.
fn start_of(line: &[u8]) -> (usize, &[u8]) {
    let Some(named) = line.strip_prefix(b"@") else {
        return (0, line);
    };
    let mut words = named.splitn(2, |byte| *byte == b' ');
    let place = words.next().unwrap_or(b"");
    let digits = words.next().unwrap_or(b"");
    (script::number(place, u64::MAX) as usize, digits)
}

/// Shows the case as it was taken from its line, then what reading it gave.
fn run_case<W: Write>(bytes: &[u8], place: usize, out: &mut W) -> std::io::Result<()> {
    write!(out, "at {place} of{}: ", Hex { bytes })?;
    match numbers::read(bytes, place) {
        Ok(number) => run_writer(number, out)?,
        Err(refusal) => write!(out, "refused {}", refusal.number())?,
    }
    writeln!(out, "")
}

/// Shows a number that was read, and what writing it gives: with room to spare, with just the bytes
/// that it took there, and with one fewer.
fn run_writer<W: Write>(number: Number, out: &mut W) -> std::io::Result<()> {
    let Number { value, next } = number;
    write!(out, "number {value} next {next}")?;
    if let Ok(count) = write_in(ROOM, value, out)? {
        let _ = write_in(count, value, out)?;
        if let Some(fewer) = count.checked_sub(1) {
            let _ = write_in(fewer, value, out)?;
        }
    }
    Ok(())
}

/// Has a number written into as many bytes as `room` says, at most ROOM, which hold ee before: `numbers::write` is lent an array. Shows the writer's
/// answer, and what the bytes hold then.
fn write_in<W: Write>(
    room: usize,
    value: u32,
    out: &mut W,
) -> std::io::Result<Result<usize, Refusal>> {
    let mut bytes = [0xeeu8; ROOM];
    let bytes = &mut bytes[..room.min(ROOM)];
    let answer = numbers::write(bytes, value);
    write!(out, " | ")?;
    match answer {
        Ok(count) => write!(out, "wrote {count}")?,
        Err(refusal) => write!(out, "refused {}", refusal.number())?,
    }
    write!(out, ":{}", Hex { bytes })?;
    Ok(answer)
}
