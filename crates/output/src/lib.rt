//! Standard output, as the programs write to it.
#![tactic(auto)]

ghost use Rattle.std.specs.Prelude.{◌≡◌, length, None, Ok};
ghost use Rattle.std.specs.Io.{WritesAtMost};
ghost use Rattle.std.specs.Io.KnownBytes.{Keeps, WriteAppends};

use std::io::{Result, Write};

/// Standard output. A program ends as it would if nothing failed: what a failed write leaves is left out, and what comes
/// behind it is written all the same.
#[derive(Clone, Copy, Drop)]
pub struct Output;

impl Write for Output {
    /// Takes all bytes, whatever became of them.
    fn write(&mut self, bytes: &[u8]) -> Result<usize>
        ensures bound { WritesAtMost result bytes.now }
        ensures bytes { WriteAppends None None result bytes.now }
        ensures count { result ≡ Ok (length bytes.now) }
    {
        io::write_all(1, bytes);
        Ok(bytes.len())
    }

    fn flush(&mut self) -> Result<()>
        ensures bytes { Keeps None None }
        ensures ok { result ≡ Ok tt }
    {
        Ok(())
    }
}
