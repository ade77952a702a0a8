// The listing of a schedule (01, "Schedule bytes and listing"): what it begins with, and a line for each
// entry; the text of lines is the crate line's. It is told piece by piece, so that one buffer serves however
// long it is; that the pieces are the whole listing is proved beside.
#![tactic(auto)]

ghost use Rattle.std.specs.Prelude.{true, ◌≡◌, ◌+◌, ◌/◌, ◌^◌, ◌<◌, ◌≤◌, length, take};
ghost use Rattle.lent.specs.Lent.{written, written_at};
ghost use Rattle.line.specs.Line.{line_of};
ghost use Rattle.listing.specs.Listing.{counted};
ghost use Rattle.listing.specs.Pieces.{opened, opened_with_verdict, ended, refused_at, entered, next_line, lines, told};

use entry::Entry;
use line::Line;
use machine::Machine;
use refusal::Refusal;

// How far a schedule has been told: the machine, the place of the next entry's first byte, the next entry's
// place among the entries, and whether entries go on there: a flag and no Option of the place, since where a listing that
// has stopped stands is told too (`stopped`, `enough_lines`).
#[derive(Clone, Copy)]
pub struct Listing {
    pub machine: Machine,
    pub from: usize,
    pub place: u32,
    pub going: bool,
}

// What a schedule begins with, and its set-up's verdict. It stands beside `Listing::of` since its promise covers a refused
// set-up too: which listing stands beside the refusal. The listing counts only where the set-up is accepted.
#[derive(Clone, Copy)]
pub struct Opened {
    pub verdict: Result<(), Refusal>,
    pub listing: Listing,
}

// The listing after some of its lines, and how many bytes these took.
#[derive(Clone, Copy)]
pub struct Lines {
    pub listing: Listing,
    pub count: usize,
}

// Of longer input only the first 65,536 bytes count.
fn counted(s: &[u8]) -> &[u8]
    ensures { result.now ≡ counted s.now }
{
    if s.len() <= Listing::BYTES {
        return s;
    }
    &s[..Listing::BYTES]
}

impl Opened {
    // The listing from behind the set-up; beside a refusal that of a fresh machine of 0 and 0, from the first byte on.
    pub fn of(s: &[u8]) -> Opened
        ensures { result ≡ opened_with_verdict s.now }
    {
        match Listing::of(s) {
            Ok(listing) => Opened {
                verdict: Ok(()),
                listing,
            },
            Err(refusal) => Opened {
                verdict: Err(refusal),
                listing: Listing {
                    machine: Machine::fresh(0, 0),
                    from: 0,
                    place: 0,
                    going: true,
                },
            },
        }
    }
}

impl Listing {
    // How many bytes of a schedule count.
    pub const BYTES: usize = 65536;

    // What a schedule begins with: a fresh machine, and the entries from behind the set-up on.
    pub fn of(s: &[u8]) -> Result<Listing, Refusal>
        ensures { result ≡ opened s.now }
    {
        let set_up = schedule::read::set_up(counted(s))?;
        Ok(Listing {
            machine: Machine::fresh(set_up.threads, set_up.nodes),
            from: set_up.next,
            place: 0,
            going: true,
        })
    }

    // Writes the lines of the next entries at the start of out, as many as find room at Line::BYTES
    // each; how many bytes these took.
    pub fn tell(&mut self, s: &[u8], out: &mut [u8]) -> usize
        ensures count { result ≡ length (lines (length out.old / 64) (counted s.now) self.old).text }
        ensures listing { self.new ≡ (lines (length out.old / 64) (counted s.now) self.old).after }
        ensures buffer { out.new ≡ written (lines (length out.old / 64) (counted s.now) self.old).text out.old }
    {
        let input = counted(s);
        let mut at = 0;
        for _told in 0..out.len() / Line::BYTES {
            if !self.going {
                return at;
            }
            let line = self.next(input);
            put(out, at, line);
            at += line.count;
        }
        at
    }

    // The same with the listing handed over, and handed back beside the count: its promise may not go.
    pub fn lines(mut self, s: &[u8], out: &mut [u8]) -> Lines
        ensures { (result ≡ told (lines (length out.old / 64) (counted s.now) self)) × (out.new ≡ written (lines (length out.old / 64) (counted s.now) self).text out.old) }
    {
        let count = self.tell(s, out);
        Lines {
            listing: self,
            count,
        }
    }

    // The next line, by what is read next: the end, a refusal, or an entry.
    #[tactic(auto, unfolding(crate::specs::Pieces::next_line), using(schedule::proofs::Within::entry_ends))]
    fn next(&mut self, s: &[u8]) -> Line
        requires { self.old.going ≡ true }
        ensures line { result ≡ line_of (next_line s.now self.old).text }
        ensures listing { self.new ≡ (next_line s.now self.old).after }
    {
        match schedule::read::entry(s, self.from) {
            None => self.ended(),
            Some(Err(refusal)) => self.refused(refusal),
            Some(Ok(read)) => self.entered(read.entry, read.count),
        }
    }

    // No entry is left, and no line is told: a line of no bytes, as the definition has it, so that `next` answers one always.
    fn ended(&mut self) -> Line
        ensures line { result ≡ line_of (ended self.old).text }
        ensures listing { self.new ≡ (ended self.old).after }
    {
        self.going = false;
        Line {
            bytes: [0u8; Line::BYTES],
            count: 0,
        }
    }

    // Bytes that are no entry get a line too, and end the entries.
    fn refused(&mut self, refusal: Refusal) -> Line
        ensures line { result ≡ line_of (refused_at self.old refusal).text }
        ensures listing { self.new ≡ (refused_at self.old refusal).after }
    {
        self.going = false;
        let depth = contents::depth_of(&self.machine);
        line::entry(self.place, Err(refusal), 0, depth)
    }

    // An entry that read well, and took `count` bytes.
    fn entered(&mut self, entry: Entry, count: usize) -> Line
        requires going { self.old.going ≡ true }
        requires fits { self.old.from + count < 2 ^ 64 }
        ensures line { result ≡ line_of (entered self.old entry count).text }
        ensures listing { self.new ≡ (entered self.old entry count).after }
    {
        let place = self.place;
        let reply = self.machine.enter(entry);
        self.from += count;
        self.place = place.wrapping_add(1);
        line::entry(
            place,
            reply.answer,
            reply.steps,
            contents::depth_of(&self.machine),
        )
    }
}

// Puts a line at a place of out, where it fits: the buffer is lent whole and told whole, so the place goes along.
#[tactic(auto, using(lent::proofs::Laws::writing_fits, lent::proofs::Laws::written_in_part))]
fn put(out: &mut [u8], at: usize, line: Line)
    requires { (line.count ≤ length line.bytes) × (at + line.count ≤ length out.old) }
    ensures { out.new ≡ written_at at (take line.count line.bytes) out.old }
{
    lent::put(&mut out[at..], &line.bytes[..line.count]).unwrap();
}
