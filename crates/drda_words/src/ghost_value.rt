//! Values that only clauses read.

ghost use Rattle.std.specs.Prelude.{◌≡◌};
ghost use Rattle.std.specs.Borrow.{ftrue};

use std::marker::{Model, PhantomData, Send};

/// A `T` as clauses see it. It takes no memory, and no code reads it. Nothing but the clauses of the
/// functions that make and set it tie it to what a program does.
#[derive(Drop)]
pub struct GhostValue<T> {
    marker: PhantomData<T>,
    pub ghost value: { T },
}

impl<T> Model for GhostValue<T> {
    ghost also_owns = { λ _. ftrue };
}

// It holds nothing, so it may go to another thread.
unsafe impl<T> Send for GhostValue<T> {}

impl<T> GhostValue<T> {
    /// The value that the caller's proof picks, which may read what `from` refers to.
    pub fn of<W>(from: &W) -> GhostValue<T>
        ghost picked: { T }
        ensures { result.value ≡ picked }
    {
        let _ = from;
        GhostValue {
            marker: PhantomData,
        }
    }

    /// Another value, which the caller's proof picks. It may read the value so far, and what `from`
    /// refers to.
    pub fn set<W>(&mut self, from: &W)
        ghost picked: { T }
        ensures { self.new.value ≡ picked }
    {
        *self = GhostValue::of(from);
    }
}
