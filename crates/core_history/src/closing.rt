//! Whether passes are all that have leave.

ghost use Rattle.std.specs.Prelude.{◌↔◌, IsTrue};
ghost use Rattle.core_history.specs.Passes.{AreAll, AreKnown, AreJustAt, IsAt};

use crate::book::Book;
use crate::count::Count;
use crate::numbering::knows;
use crate::pass::Pass;
use drda_disk::Disk;

impl<D: Disk> Book<D> {
    ghost use Rattle.std.specs.Prelude.{◌≡◌, ◌↔◌, IsTrue, true};
    ghost use Rattle.core_history.specs.Books.{IsKept};
    ghost use Rattle.core_history.specs.Passes.{AreJust, AreListed};

    /// What every book keeps. Does nothing.
    pub fn is_kept(&self)
        ensures { IsKept D.is_modelled D.life self.now }
    {
        let _next = &self.next;
    }

    /// Whether these passes are all that have leave, each once and counted as the book counts.
    pub fn is_just(&self, passes: &[Pass]) -> bool
        ensures just { IsTrue result ↔ AreJust passes.now self.now }
        ensures listed { result ≡ true → AreListed passes.now self.now }
    {
        are_just(&self.places, passes)
    }
}

// Whether these passes are all that have leave at these places, each once and counted as there.
fn are_just(places: &[Option<Count>], passes: &[Pass]) -> bool
    ensures { IsTrue result ↔ AreJustAt passes.now places.now }
{
    are_known(places, passes) && are_all(places, passes)
}

// Whether each is known, and no two are at one place.
fn are_known(places: &[Option<Count>], passes: &[Pass]) -> bool
    ensures { IsTrue result ↔ AreKnown passes.now places.now }
{
    let mut left = passes;
    while let [pass, rest @ ..] = left {
        if !knows(places, pass) || is_at(rest, pass.place) {
            return false;
        }
        left = rest;
    }
    true
}

// Whether there is one at each place that is taken.
fn are_all(places: &[Option<Count>], passes: &[Pass]) -> bool
    ensures { IsTrue result ↔ AreAll passes.now places.now }
{
    for place in 0..places.len() {
        if places[place].is_some() && !is_at(passes, place) {
            return false;
        }
    }
    true
}

// Whether one of them is at this place.
fn is_at(passes: &[Pass], place: usize) -> bool
    ensures { IsTrue result ↔ IsAt passes.now place }
{
    passes.iter().any(|pass| pass.place == place)
}
