//! The state, and its parts.

ghost use Rattle.std.specs.Prelude.{◌≡◌, IfOk, IsTrue, map};
ghost use Rattle.ahead_view.specs.Source.{LeavesReader};
ghost use Rattle.paged_tables.specs.PagedTables.{store_in};
ghost use Rattle.unit_table.specs.Plain.{held_of};
ghost use Rattle.rdb_core.specs.Copied.{FailsOn, ReadsOn};

use crate::plain_tables::copied_tables;
use ahead_view::{ReadError, Source};
use paged_tables::PagedTables;
use std::alloc::{AllocError, Global};
use std::marker::Model;
use tables::PlainView;
use unit_table::{PlainUnit, Units};
use xa_manager::{Branch, XaTable};

/// The state of a core as plain lists, which it owns: the committed tables, the units of work that have a
/// change or a claim, and the XA branches that are known. Contracts see the state that the core's step has.
#[derive(Drop)]
pub struct PlainState {
    tables: PlainView,
    units: Vec<PlainUnit>,
    branches: Vec<Branch>,
}

impl Model for PlainState {
    ghost use Rattle.std.specs.Prelude.{map};
    ghost use Rattle.core_model.specs.Step.{CoreState};
    ghost use Rattle.unit_table.specs.Plain.{held_of};
    ghost use Rattle.rdb_core.specs.PlainState.{state_in};

    ghost Value = { CoreState };

    ghost view = { λ p. state_in p.tables (map held_of p.units.items) p.branches.items };
}

impl PlainState {
    ghost use Rattle.rdb_core.specs.PlainState.{state_in};

    /// A copy of the state that has these parts, whose rows are read there. Memory may be refused, and the
    /// device may fail in a read.
    pub fn of<S: Source>(
        source: &mut S,
        alloc: Global,
        tables: &PagedTables,
        units: &Units,
        branches: &XaTable,
    ) -> Result<PlainState, ReadError>
        requires { S.holds source.old tables.now.tables }
        ensures told { IsTrue S.is_told → IfOk result (λ state. state ≡ state_in (store_in tables.now) units.now branches.now) }
        ensures source { LeavesReader (ReadsOn S.reads) (FailsOn S.reads S.fails_to_read) source.old result source.new }
    {
        let tables = copied_tables(source, alloc, tables)?;
        let units = units.plain()?;
        let branches = Vec::from_slice(alloc, branches.branches())?;
        Ok(PlainState {
            tables,
            units,
            branches,
        })
    }

    /// The units that have a change or a claim, each once: local ones in the order of their conversations,
    /// then those of branches in the order of the bytes of their XIDs.
    pub fn units(&self) -> &[PlainUnit]
        ensures { map held_of result.now ≡ self.now.base.units }
    {
        &self.units
    }

    /// The branches that are known, each with where it stands, in the order of the bytes of their XIDs.
    pub fn branches(&self) -> &[Branch]
        ensures { result.now ≡ self.now.branches }
    {
        &self.branches
    }

    /// The committed tables, which are read by `TableView`.
    pub fn into_tables(self) -> PlainView
        ensures { result ≡ self.base.store }
    {
        self.tables
    }
}
