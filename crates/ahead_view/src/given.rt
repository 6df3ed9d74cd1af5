//! A store that clauses alone read.

ghost use Rattle.std.specs.Prelude.{[]};
ghost use Rattle.tables.specs.Tables.{Store};

use std::marker::Model;

/// A store, as clauses see it.
#[derive(Drop)]
pub(crate) struct GivenStore {}

impl Model for GivenStore {
    ghost Value = { Store };

    ghost view = { λ _. [] };
}
