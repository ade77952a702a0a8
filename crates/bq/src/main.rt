//! The listing program: reads a schedule from standard input and writes its listing to standard output, in
//! blocks. What is written is made by the crates listing and line; this is the reading and writing alone.
#![tactic(auto)]

ghost use Rattle.std.specs.Prelude.{OnOk};
ghost use Rattle.std.specs.Io.KnownBytes.{Appends};
ghost use Rattle.line.specs.Text.{first_text};
ghost use Rattle.listing.specs.Listing.{listing, counted};
ghost use Rattle.listing.specs.Pieces.{last_line};
ghost use Rattle.bq.specs.Told.{TellsAll};

use listing::Listing;
use machine::Machine;
use output::Output;
use refusal::Refusal;
use std::io::Write;

/// Of longer input only the first 65,536 bytes count: no more are read. A read that fails ends the input, and a write that
/// fails leaves out what it has not written.
fn main() {
    let mut input = io::large_buffer();
    let count = io::read_full(0, &mut input);
    let _ = list(&input[..count], &mut Output);
}

/// Writes the listing of a schedule, and nothing else.
fn list<W: Write>(s: &[u8], out: &mut W) -> std::io::Result<()>
    ensures { OnOk result (Appends (W.contents out.old) (W.contents out.new) (listing s.now)) }
{
    match Listing::of(s) {
        Err(refusal) => first(Err(refusal), out),
        Ok(mut listing) => {
            first(Ok(listing.machine), out)?;
            entries(&mut listing, s, out)
        }
    }
}

/// The set-up's line, or why it is refused.
fn first<W: Write>(made: Result<Machine, Refusal>, out: &mut W) -> std::io::Result<()>
    ensures { OnOk result (Appends (W.contents out.old) (W.contents out.new) (first_text made)) }
{
    let line = line::first(made);
    out.write_all(&line.bytes[..line.count])
}

/// Block by block. A block tells an entry at least, and an entry takes a byte at least. `Listing::tell` is lent an array, as
/// `line::queue` is below: their contracts are of what stands in it then.
fn entries<W: Write>(listing: &mut Listing, s: &[u8], out: &mut W) -> std::io::Result<()>
    ensures { OnOk result (TellsAll (counted s.now) listing.old (W.contents out.old) (W.contents out.new)) }
{
    let mut block = [0u8; 65536];
    for _round in 0..Listing::BYTES {
        if !listing.going {
            break;
        }
        let count = listing.tell(s, &mut block);
        out.write_all(&block[..count])?;
    }
    last(listing, out)
}

/// No line of what the queue holds is longer than the buffer, so none is refused.
fn last<W: Write>(listing: &Listing, out: &mut W) -> std::io::Result<()>
    ensures { OnOk result (Appends (W.contents out.old) (W.contents out.new) (last_line listing.now)) }
{
    let mut line = [0u8; 8192];
    match line::queue(listing.machine, &mut line) {
        Ok(count) => out.write_all(&line[..count]),
        Err(_) => Ok(()),
    }
}
