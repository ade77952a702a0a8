// Writing into a lent buffer. What the buffer then holds is defined in specs/, once for all that write.
#![tactic(auto)]

ghost use Rattle.std.specs.Prelude.{◌≡◌};
ghost use Rattle.lent.specs.Lent.{writing, written};

use refusal::Refusal;

// Writes text at the start of buf, and answers how many places it took. Refused, and buf left as it is:
// NoRoom where it does not fit.
pub fn put(buf: &mut [u8], text: &[u8]) -> Result<usize, Refusal>
    ensures { (result ≡ writing text.now buf.old) × (buf.new ≡ written text.now buf.old) }
{
    if buf.len() < text.len() {
        return Err(Refusal::NoRoom);
    }
    buf[..text.len()].copy_from_slice(text);
    Ok(text.len())
}
