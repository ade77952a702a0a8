//! A line as it is put together, piece behind piece: no `Display`, since a `write!` may fail by its type, and a line can't.
ghost use Rattle.std.specs.Prelude.{◌≡◌, ◌+◌, ◌*◌, ◌≤◌, [], ◌++◌, length};
ghost use Rattle.lent.specs.Lent.{writing, written};
ghost use Rattle.line.specs.Text.{decimal, field, fields};

use arrayvec::ArrayString;
use itoa::Buffer;
use refusal::Refusal;

/// The text so far, of at most `ROOM` bytes.
#[derive(Clone, Copy)]
pub(crate) struct Text<const ROOM: usize> {
    pub so_far: ArrayString<ROOM>,
}

impl<const ROOM: usize> Text<ROOM> {
    pub(crate) fn new() -> Text<ROOM>
        ensures { result.so_far.bytes ≡ [] }
    {
        Text {
            so_far: ArrayString::new(),
        }
    }

    pub(crate) fn word(&mut self, word: &str)
        requires { length self.old.so_far.bytes + length word.now ≤ ROOM }
        ensures text { self.new.so_far.bytes ≡ self.old.so_far.bytes ++ word.now }
        ensures len { length self.new.so_far.bytes ≡ length self.old.so_far.bytes + length word.now }
    {
        self.so_far.push_str(word);
    }

    #[tactic(auto, using(crate::proofs::Decimals::as_std_writes_it, crate::proofs::Decimals::decimal_few))]
    pub(crate) fn number(&mut self, n: u32)
        requires { length self.old.so_far.bytes + 10 ≤ ROOM }
        ensures text { self.new.so_far.bytes ≡ self.old.so_far.bytes ++ decimal n }
        ensures few { length self.new.so_far.bytes ≤ length self.old.so_far.bytes + 10 }
    {
        let mut digits = Buffer::new();
        self.so_far.push_str(digits.format(n));
    }

    /// A number with a blank in front.
    pub(crate) fn field(&mut self, n: u32)
        requires { length self.old.so_far.bytes + 11 ≤ ROOM }
        ensures text { self.new.so_far.bytes ≡ self.old.so_far.bytes ++ field n }
        ensures few { length self.new.so_far.bytes ≤ length self.old.so_far.bytes + 11 }
    {
        self.word(" ");
        self.number(n);
    }

    #[tactic(auto, unfolding(crate::specs::Text::fields))]
    pub(crate) fn fields(&mut self, items: &[u32])
        requires { length self.old.so_far.bytes + 11 * length items.now ≤ ROOM }
        ensures text { self.new.so_far.bytes ≡ self.old.so_far.bytes ++ fields items.now }
        ensures few { length self.new.so_far.bytes ≤ length self.old.so_far.bytes + 11 * length items.now }
    {
        for item in items {
            self.field(*item);
        }
    }

    /// Writes the text at the start of out. Refused, and out left as it is: NoRoom.
    pub(crate) fn put(&self, out: &mut [u8]) -> Result<usize, Refusal>
        ensures { (result ≡ writing self.now.so_far.bytes out.old) × (out.new ≡ written self.now.so_far.bytes out.old) }
    {
        lent::put(out, self.so_far.as_bytes())
    }
}
