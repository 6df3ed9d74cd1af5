//! What the words on images say.
ghost use Rattle.std.specs.Prelude.{◌≡◌, ◌+◌, ◌≤◌, length};
ghost use Rattle.drda_words.specs.Place.{part};
ghost use Rattle.drda_disk.specs.Disk.{overlaid, Torn};

/// Bytes laid over a file are read back at their place, and the rest of the file is as it was.
pub fn a_write_is_read_back(file: &[u8], at: usize, bytes: &[u8])
    requires { at + length bytes.now ≤ length file.now }
    ensures read { part (overlaid file.now at bytes.now) at (length bytes.now) ≡ bytes.now }
    ensures others { Torn at (length bytes.now) file.now (overlaid file.now at bytes.now) }
{}
