//! Showing listings. A listing is told in blocks of as many lines as a small buffer has room for, so that a
//! longer one takes several.
use listing::Listing;
use std::fmt;
use std::io::{Result, Write};

/// Of the text told so far: its bytes, their sum, and the sum of the sums after each byte, which tells their
/// order too.
#[derive(Clone, Copy, Default)]
pub(crate) struct Sums {
    count: usize,
    sum: u32,
    order: u32,
}

impl fmt::Display for Sums {
    fn fmt<W: fmt::Write>(&self, f: &mut fmt::Formatter<W>) -> fmt::Result {
        write!(f, "{} bytes, sums {} {}", self.count, self.sum, self.order)
    }
}

impl Sums {
    fn add(&mut self, text: &[u8]) {
        for byte in text {
            self.sum = self.sum.wrapping_add(u32::from(*byte));
            self.order = self.order.wrapping_add(self.sum);
        }
        self.count = self.count.wrapping_add(text.len());
    }

    fn tell<W: Write>(&mut self, text: &[u8], shown: bool, out: &mut W) -> Result<()> {
        self.add(text);
        if shown { out.write_all(text) } else { Ok(()) }
    }
}

/// Tells a schedule and shows its listing, but of the entries only those from a place on, or from the next
/// place on where a block begins: a block has 64 lines.
pub(crate) fn listing<W: Write>(s: &[u8], shown: u32, out: &mut W) -> Result<Sums> {
    let mut sums = Sums::default();
    let opened = Listing::of(s);
    let line = line::first(opened.map(|listing| listing.machine));
    sums.tell(text_of(&line.bytes, line.count), true, out)?;
    if let Ok(mut listing) = opened {
        entries(&mut listing, s, shown, &mut sums, out)?;
    }
    Ok(sums)
}

fn text_of(bytes: &[u8], count: usize) -> &[u8] {
    bytes.get(..count).unwrap_or(b"")
}

/// A block tells an entry at least, and an entry takes a byte at least; `Listing::tell` and `line::queue` are lent arrays. The line of what the queue holds is not longer than
/// the buffer, so it is not refused.
fn entries<W: Write>(
    listing: &mut Listing,
    s: &[u8],
    shown: u32,
    sums: &mut Sums,
    out: &mut W,
) -> Result<()> {
    let mut block = [0u8; 4096];
    for _ in 0..s.len() {
        if !listing.going {
            break;
        }
        let place = listing.place;
        let count = listing.tell(s, &mut block);
        sums.tell(text_of(&block, count), shown <= place, out)?;
    }
    let mut line = [0u8; 8192];
    match line::queue(listing.machine, &mut line) {
        Ok(count) => sums.tell(text_of(&line, count), true, out),
        Err(_) => Ok(()),
    }
}
