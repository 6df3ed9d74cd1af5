//! The book.

use crate::calls::CallList;
use crate::chosen::Chosen;
use crate::count::Count;
use crate::left::Left;
use crate::renewals::Renewals;
use drda_disk::Disk;
use durable_core::DurableCore;
use std::marker::Model;
use std::snapshot::Snapshot;

/// A core with the history of what it was asked: the calls since the book was opened, in order, each with
/// the conversation that asked and what it was answered. Each answer is what the plain tables answer there;
/// of that the history takes no memory, since clauses alone read it. Up to 64 conversations have leave at a
/// time, and the book counts the calls of each. Where calls were made together, the answers are left for those
/// whose thread did not make them.
#[derive(Drop)]
pub struct Book<D: Disk> {
    pub(crate) core: DurableCore<D>,
    pub(crate) opening: Snapshot<DurableCore<D>>,
    pub(crate) calls: CallList,
    pub(crate) places: Vec<Option<Count>>,
    pub(crate) left: Vec<Option<Left>>,
    pub(crate) next: u64,
    // No clause of a book reads them.
    pub(crate) renewals: Renewals,
    pub(crate) chosen: Chosen,
}

impl<D: Disk> Model for Book<D> {
    ghost use Rattle.std.specs.Coded.{codes};
    ghost use Rattle.core_history.specs.Books.{IsKept, Told};
    ghost use Rattle.sql_copies.specs.Stored.{coded_predicate};

    ghost Value = { Told D };

    ghost coded = { Prim.hlevel (codes, coded_predicate) };

    ghost view = { λ b. record { core = b.core; opening = b.opening.value; calls = b.calls.listed; places = b.places.items; left = b.left.items; next = b.next } };

    ghost invariant = { λ b. IsKept D.is_modelled D.life (record { core = b.core; opening = b.opening.value; calls = b.calls.listed; places = b.places.items; left = b.left.items; next = b.next }) };
}
