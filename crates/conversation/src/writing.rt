//! Writing all of some bytes.

ghost use Rattle.std.specs.Prelude.{◌≡◌, ℕ, OnOk, OnErr, take};
ghost use Rattle.std.specs.Io.KnownBytes.{Appends};

use std::io::{self, ErrorKind, Write};

/// Writes all the bytes, or after an error a front of them.
pub fn write_whole<W: Write>(writer: &mut W, bytes: &[u8]) -> io::Result<()>
    ensures ok { OnOk result (Appends (W.contents writer.old) (W.contents writer.new) bytes.now) }
    ensures err { OnErr result ((count : ℕ) × Appends (W.contents writer.old) (W.contents writer.new) (take count bytes.now)) }
{
    let mut at = 0;
    'writing: while at < bytes.len() {
        let count = writer.write(&bytes[at..])?;
        if count == 0 {
            return Err(io::Error::from(ErrorKind::WriteZero));
        }
        at += count;
    }
    Ok(())
}
