use crate::fault::FrameFault;
use crate::group::Group;
use crate::joining::join;
use crate::looking::{front_of, header_length, look, wanted};
use crate::overwriting::{append, overwrite};
use crate::progress::{Expected, Found, Progress};
use crate::turn::Turn;
use std::alloc::Global;
use std::marker::Model;

/// The bytes of one conversation, as they come: it lends each command as soon as its last byte is
/// there, and finds the first fault as soon as its header is.
///
/// A command is kept as it came until it is whole. Then the contents of its continuations are moved
/// down over their headers, and it stays in front of `start`, where the bytes that follow begin.
#[derive(Drop)]
pub struct Segments {
    buf: Vec<u8>,
    lent: usize,
    lent_size: usize,
    start: usize,
    place: Progress,
    at_fault: bool,
}

impl Model for Segments {
    ghost use Rattle.std.specs.Prelude.{drop};
    ghost use Rattle.drda_words.specs.Place.{part};
    ghost use Rattle.dss_frames.specs.Held.{Held};
    ghost use Rattle.dss_frames.specs.Group.{joined_dsss};
    ghost use Rattle.dss_frames.specs.Progress.{IsConsistent};

    ghost Value = { Held };

    ghost view = { λ s. record { rest = drop s.start s.buf.items; at_fault = s.at_fault; last = joined_dsss (part s.buf.items s.lent s.lent_size) } };

    ghost invariant = { λ s. IsConsistent s.buf.items s.lent s.lent_size s.start s.place s.at_fault };
}

impl Segments {
    ghost use Rattle.std.specs.Prelude.{◌≡◌, ◌⊎◌, ◌≤◌, ◌++◌, ◌+◌, [], false, length, take, IsTrue};
    ghost use Rattle.std.specs.Borrow.{sem};
    ghost use Rattle.dss_frames.specs.Group.{command_of};
    ghost use Rattle.dss_frames.specs.Fault.{IsUnfinished};
    ghost use Rattle.dss_frames.specs.Lending.{EndsAs, GoesFar, KeepsToFirst, Takes, TakesFront, TakesCommand};
    ghost use Rattle.dss_frames.specs.Progress.{HasCommand};

    /// A reader that holds nothing. It takes no memory before the first bytes come.
    pub fn new(alloc: Global) -> Segments
        ensures rest { result.rest ≡ [] }
        ensures no_fault { result.at_fault ≡ false }
    {
        Segments {
            buf: Vec::new(alloc),
            lent: 0,
            lent_size: 0,
            start: 0,
            place: Progress {
                at: 0,
                expected: Expected::Header(Turn::Request),
            },
            at_fault: false,
        }
    }

    /// Forgets all that it holds and knows, and gives its memory back. All of that memory is overwritten
    /// first, since a password may stand in it.
    pub fn restart(&mut self, alloc: Global)
        ensures rest { self.new.rest ≡ [] }
        ensures no_fault { self.new.at_fault ≡ false }
    {
        overwrite(&mut self.buf);
        *self = Segments::new(alloc);
    }

    /// Gives its memory back where nothing has come behind the command that was lent last, overwritten first. What was lent is forgotten.
    pub fn release(&mut self, alloc: Global)
        ensures rest { self.new.rest ≡ self.old.rest }
        ensures fault_stays { self.new.at_fault ≡ self.old.at_fault }
    {
        if !self.at_fault && self.rest().is_empty() {
            self.restart(alloc);
        }
    }

    /// Takes the bytes that come next, and says how many it took: all of them, none after a fault,
    /// and fewer only where memory is refused. What was lent before is forgotten.
    pub fn feed(&mut self, piece: &[u8]) -> usize
        ensures taken { self.new.rest ≡ self.old.rest ++ take result piece.now }
        ensures within { result ≤ length piece.now }
        ensures at_fault { IsTrue self.old.at_fault → result ≡ 0 }
        ensures fault_stays { self.new.at_fault ≡ self.old.at_fault }
    {
        if self.at_fault {
            return 0;
        }
        self.make_room();
        match append(&mut self.buf, piece) {
            Ok(()) => piece.len(),
            Err(_) => 0,
        }
    }

    /// Takes the bytes in front of a piece that belong to the command under way, and says how many: up to
    /// its end, or to the end of the next header where that is to be judged first, and all of the piece
    /// where it ends before; none after a fault, and none where memory is refused. So no byte here stands
    /// behind the first command or fault. Where nothing is held, what was lent before is forgotten.
    pub fn feed_command(&mut self, piece: &[u8]) -> usize
        ensures taken { self.new.rest ≡ self.old.rest ++ take result piece.now }
        ensures within { result ≤ length piece.now }
        ensures first { IsUnfinished self.old.rest → KeepsToFirst self.old.rest piece.now result }
        ensures far { IsUnfinished self.old.rest → (result ≡ 0) ⊎ GoesFar self.old.rest piece.now result }
        ensures at_fault { IsTrue self.old.at_fault → result ≡ 0 }
        ensures fault_stays { self.new.at_fault ≡ self.old.at_fault }
    {
        if self.at_fault || piece.is_empty() {
            return 0;
        }
        if self.rest().is_empty() {
            self.make_room();
            self.feed_first(piece)
        } else {
            self.feed_more(piece)
        }
    }

    // The first bytes of a command.
    #[inline(always)]
    fn feed_first(&mut self, piece: &[u8]) -> usize
        requires { self.old.at_fault ≡ false }
        ensures taken { self.new.rest ≡ self.old.rest ++ take result piece.now }
        ensures within { result ≤ length piece.now }
        ensures first { IsUnfinished self.old.rest → KeepsToFirst self.old.rest piece.now result }
        ensures far { IsUnfinished self.old.rest → (result ≡ 0) ⊎ GoesFar self.old.rest piece.now result }
        ensures fault_stays { self.new.at_fault ≡ self.old.at_fault }
    {
        let (count, place) = front_of(self.place, self.rest(), piece);
        match append(&mut self.buf, &piece[..count]) {
            Ok(()) => {
                self.place = place;
                count
            }
            Err(_) => 0,
        }
    }

    // More of a command under way: the place of its next header stays.
    #[inline(always)]
    fn feed_more(&mut self, piece: &[u8]) -> usize
        requires { self.old.at_fault ≡ false }
        ensures taken { self.new.rest ≡ self.old.rest ++ take result piece.now }
        ensures within { result ≤ length piece.now }
        ensures first { IsUnfinished self.old.rest → KeepsToFirst self.old.rest piece.now result }
        ensures far { IsUnfinished self.old.rest → (result ≡ 0) ⊎ GoesFar self.old.rest piece.now result }
        ensures fault_stays { self.new.at_fault ≡ self.old.at_fault }
    {
        let count = wanted(self.place, self.rest()).min(piece.len());
        let Ok(()) = append(&mut self.buf, &piece[..count]) else {
            return 0;
        };
        count
    }

    /// The next command, where all of it has come; none, where more bytes have to come; or the
    /// first fault, which stays. It takes no memory. The command lies in the buffer until the
    /// reader is used again.
    #[inline(always)]
    pub fn next(&mut self) -> Result<Option<Group<'_>>, FrameFault>
        ensures* after { sem 𝓛 (EndsAs self.entry (λ n. Takes self.old result n)) }
    {
        if self.waits() {
            return Ok(None);
        }
        if self.take_command()? {
            Ok(Some(self.last()))
        } else {
            Ok(None)
        }
    }

    /// The command that was lent last, again.
    pub fn last(&self) -> Group<'_>
        ensures { command_of result ≡ self.now.last }
    {
        Group {
            text: &self.buf[self.lent..self.lent + self.lent_size],
        }
    }

    fn rest(&self) -> &[u8]
        ensures { result.now ≡ self.now.rest }
    {
        &self.buf[self.start..]
    }

    fn make_room(&mut self)
        ensures rest { self.new.rest ≡ self.old.rest }
        ensures last { self.new.last ≡ [] }
        ensures at_fault { self.new.at_fault ≡ self.old.at_fault }
    {
        let kept = self.buf.len() - self.start;
        if kept <= self.start {
            self.buf.copy_within(self.start.., 0);
            self.buf.truncate(kept);
            self.start = 0;
        }
        self.lent = self.start;
        self.lent_size = 0;
    }

    // Whether the next header has not come yet.
    #[inline(always)]
    fn waits(&self) -> bool
        ensures unfinished { IsTrue result → IsUnfinished self.now.rest }
        ensures no_fault { IsTrue result → self.now.at_fault ≡ false }
    {
        self.rest().len() < self.place.at + header_length(self.place.expected)
    }

    #[inline(never)]
    fn take_command(&mut self) -> Result<bool, FrameFault>
        ensures { TakesFront self.old result self.new }
    {
        match look(self.place, self.rest()) {
            Ok(Found::Command(size)) => {
                self.lend(size);
                Ok(true)
            }
            Ok(Found::Nothing(place)) => {
                self.place = place;
                Ok(false)
            }
            Err(fault) => {
                self.at_fault = true;
                Err(fault)
            }
        }
    }

    /// Joins the command in front, and takes it.
    fn lend(&mut self, size: usize)
        requires { HasCommand self.old.rest size }
        ensures { TakesCommand self.old self.new.last self.new }
    {
        let end = self.start + size;
        let joined = join(&mut self.buf, self.start, size);
        self.lent = self.start;
        self.lent_size = joined;
        self.start = end;
        self.place = Progress {
            at: 0,
            expected: Expected::Header(Turn::Request),
        };
    }
}
