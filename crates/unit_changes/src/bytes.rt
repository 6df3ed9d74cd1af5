//! That bytes are bytes.

ghost use Rattle.drda_words.specs.Bytes.{AreBytes};

/// Reads every byte, so that a proof knows that each is below 256.
pub(crate) fn see_bytes(bytes: &[u8])
    ensures { AreBytes bytes.now }
{
    for byte in bytes {
        let _seen = *byte;
    }
}
