//! Over which core a shared book was opened.

ghost use Rattle.recovery.specs.Journaled.{OnDisk};

use std::marker::Brand;

/// What is known of the core over which a book that threads share was opened, as it was then. It stands in the types of all
/// that have to do with that book, since a lock knows of what it holds only its type. Whoever passes `Brand` says of which core
/// it is; of `Brand` itself nothing is known.
pub trait Origin<D> {
    ghost is: { OnDisk D → Type 0 };
}

impl<D> Origin<D> for Brand {
    ghost is = { λ _. Unit {0} };
}
