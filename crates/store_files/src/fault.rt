//! Why the program ends without success.

ghost use Rattle.std.specs.Prelude.{◌≡◌, ℕ, take};
ghost use Rattle.std.specs.Io.KnownBytes.{Appends};
ghost use Rattle.store_files.specs.Endings.{line_for, status_for};

use conversation::write_whole;
use std::alloc::{AllocError, Global};
use std::fmt::Write as _;
use std::io::Write;

/// Why the program ends without success.
#[derive(Clone, Copy, Debug, PartialEq, Eq)]
pub enum Fault {
    /// The command line is none that the program takes.
    BadArguments,
    /// Reading or writing failed, or a file or a port can't be had.
    Device,
    /// A file is no store.
    NotAStore,
    /// A store is damaged at this offset.
    Damaged { at: usize },
    /// What came is no event.
    BadEvent,
    /// Memory was refused.
    NoMemory,
    /// No unit of an XID waits for its decision.
    NotInDoubt,
    /// A checkpoint has no room in its half.
    NoRoom,
}

impl Fault {
    /// The exit status.
    pub fn status(self) -> u8
        ensures { result ≡ status_for self }
    {
        match self {
            Fault::BadArguments => 1,
            Fault::Device => 2,
            Fault::NotAStore => 3,
            Fault::Damaged { at: _ } => 3,
            Fault::BadEvent => 4,
            Fault::NoMemory => 5,
            Fault::NotInDoubt => 6,
            Fault::NoRoom => 7,
        }
    }

    /// Writes the line that reports it, or a front of it where writing fails. The line that tells an
    /// offset is not written where there is no memory for it.
    pub fn say<E: Write>(self, alloc: Global, err: &mut E)
        ensures { (count : ℕ) × Appends (E.contents err.old) (E.contents err.new) (take count (line_for self)) }
    {
        match self {
            Fault::BadArguments => say_line(b"drdad: bad arguments\n", err),
            Fault::Device => say_line(b"drdad: file or device fault\n", err),
            Fault::NotAStore => say_line(b"drdad: not a store\n", err),
            Fault::Damaged { at } => say_damaged(alloc, at, err),
            Fault::BadEvent => say_line(b"drdad: bad event\n", err),
            Fault::NoMemory => say_line(b"drdad: no memory\n", err),
            Fault::NotInDoubt => say_line(b"drdad: not in doubt\n", err),
            Fault::NoRoom => say_line(b"drdad: no room\n", err),
        }
    }
}

// Writes a line, or a front of it where writing fails.
fn say_line<E: Write>(line: &[u8], err: &mut E)
    ensures { (count : ℕ) × Appends (E.contents err.old) (E.contents err.new) (take count line.now) }
{
    let _ = write_whole(err, line);
}

fn say_damaged<E: Write>(alloc: Global, at: usize, err: &mut E)
    ensures { (count : ℕ) × Appends (E.contents err.old) (E.contents err.new) (take count (line_for (Fault.Damaged at))) }
{
    let mut line = String::new(alloc);
    match writeln!(line, "drdad: damaged at {at}") {
        Ok(()) => say_line(line.as_bytes(), err),
        Err(_) => {}
    }
}

impl From<AllocError> for Fault {
    ghost use Rattle.store_files.specs.declared.fault.Fault.TheVariants.{NoMemory};

    ghost from_gives = { λ _ fault. fault ≡ NoMemory };

    fn from(_: AllocError) -> Fault {
        Fault::NoMemory
    }
}
