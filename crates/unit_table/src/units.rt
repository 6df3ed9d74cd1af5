//! The units of work.

ghost use Rattle.std.specs.Prelude.{◌≡◌, ◌++◌, IfOk, OnErr, OnOk, [], false, map, option_map, unwrap_or};
ghost use Rattle.tables.specs.ChangeView.{change_of};
ghost use Rattle.unit_locks.specs.Claims.{all_added, claims_of};
ghost use Rattle.core_model.specs.Laws.{AreListed};
ghost use Rattle.core_model.specs.Units.{clashes, global, has_any, has_work, left_of, others, set_unit, unit_of, without};
ghost use Rattle.unit_table.specs.Keeping.{Keeps};
ghost use Rattle.unit_table.specs.Owner.{plain_owner};
ghost use Rattle.unit_table.specs.Plain.{held_of};

use crate::changes::first;
use crate::clashing::clash_with_others;
use crate::entry::Entry;
use crate::keep_error::KeepError;
use crate::owner::Owner;
use crate::place::place;
use crate::plain::{PlainUnit, add_copies, copied_units};
use crate::row;
use row_values::Schema;
use std::alloc::{AllocError, Global};
use std::marker::Model;
use std::sync::Arc;
use tables::Change;
use unit_changes::{MAX_CHANGED_BYTES, UnitChanges};
use unit_locks::{Claim, Claims, UnitId};
use xa_calls::Xid;

/// The units that have work: what each has changed and what it claims. Contracts see the list that
/// the core's step has of them, in the order of their owners; an owner that is not listed has no work.
#[derive(Drop)]
pub struct Units {
    alloc: Global,
    entries: Vec<Entry>,
    claims: Claims,
}

impl Model for Units {
    ghost use Rattle.std.specs.Prelude.{List};
    ghost use Rattle.core_model.specs.Units.{Held};
    ghost use Rattle.unit_table.specs.Table.{AreKept, held};

    ghost Value = { List Held };

    ghost view = { λ u. held u.claims u.entries.items };

    ghost invariant = { λ u. AreKept u.entries.items u.claims };
}

impl Units {
    /// No unit has work. Takes no memory.
    pub fn new(alloc: Global) -> Units
        ensures { result ≡ [] }
    {
        Units {
            alloc,
            entries: Vec::new(alloc),
            claims: Claims::new(alloc),
        }
    }

    /// The changes of an owner's unit, in their order.
    pub fn changes(&self, owner: &Owner) -> &[Change]
        ensures { map change_of result.now ≡ (unit_of (plain_owner owner.now) self.now).changes }
    {
        match place(self.entries.as_slice(), owner) {
            Ok(at) => self.entries[at].changes.as_slice(),
            Err(_) => &[],
        }
    }

    /// Adds copies of the changes of an owner's unit at the end, in their order: none where it has no work.
    /// Memory may be refused; what was added until then is of no use.
    pub fn copy_changes(&self, owner: &Owner, copies: &mut Vec<Change>) -> Result<(), AllocError>
        ensures { OnOk result (map change_of copies.new.items ≡ map change_of copies.old.items ++ (unit_of (plain_owner owner.now) self.now).changes) }
    {
        add_copies(self.alloc, self.changes(owner), copies)
    }

    /// The claims of an owner's unit, in the order in which it first made them.
    pub fn claims(&self, owner: &Owner) -> &[Claim]
        ensures { result.now ≡ (unit_of (plain_owner owner.now) self.now).claims }
    {
        match place(self.entries.as_slice(), owner) {
            Ok(at) => self.claims.of_unit(UnitId(self.entries[at].number)),
            Err(_) => &[],
        }
    }

    /// Whether an owner's unit has changed anything.
    pub fn has_changes(&self, owner: &Owner) -> bool
        ensures { result ≡ has_any (unit_of (plain_owner owner.now) self.now).changes }
    {
        match place(self.entries.as_slice(), owner) {
            Ok(at) => !self.entries[at].changes.is_empty(),
            Err(_) => false,
        }
    }

    /// What an owner's unit has changed, for its view of the tables. A unit without work is not listed.
    pub fn unit(&self, owner: &Owner) -> Option<&UnitChanges>
        ensures { unwrap_or (option_map (λ changes. changes.now) result) [] ≡ (unit_of (plain_owner owner.now) self.now).changes }
    {
        match place(self.entries.as_slice(), owner) {
            Ok(at) => Some(&self.entries[at].changes),
            Err(_) => None,
        }
    }

    /// How many bytes of changes an owner's unit may still add, of 1,048,576 in all.
    pub fn left(&self, owner: &Owner) -> usize
        ensures { result ≡ left_of (unit_of (plain_owner owner.now) self.now) }
    {
        match place(self.entries.as_slice(), owner) {
            Ok(at) => self.entries[at].changes.left(),
            Err(_) => MAX_CHANGED_BYTES,
        }
    }

    /// Whether an owner's unit has a claim or a change.
    pub fn has_work(&self, owner: &Owner) -> bool
        ensures { result ≡ has_work (unit_of (plain_owner owner.now) self.now) }
    {
        place(self.entries.as_slice(), owner).is_ok()
    }

    /// The units are listed in one way alone: each has work, and they stand in the order of their
    /// owners.
    pub fn are_listed(&self)
        ensures { AreListed self.now }
    {
        let _entries = &self.entries;
    }

    /// Copies of the units that have work, in the order of their owners: local ones by their conversations,
    /// then those of branches by the bytes of their XIDs. Memory may be refused.
    pub fn plain(&self) -> Result<Vec<PlainUnit>, AllocError>
        ensures { IfOk result (λ units. map held_of units.items ≡ self.now) }
    {
        copied_units(self.alloc, self.entries.as_slice(), &self.claims)
    }

    /// Whether a claim of these clashes with one of another unit.
    pub fn clashes(&self, owner: &Owner, claims: &[Claim]) -> bool
        ensures { result ≡ clashes claims.now (others (plain_owner owner.now) self.now) }
    {
        clash_with_others(self.entries.as_slice(), &self.claims, owner, claims)
    }

    /// Keeps what a question of an owner's unit has claimed and changed, both or nothing: the unit has
    /// these claims behind those that it had, each once, and these changes behind its own. A unit that
    /// then has a claim or a change is listed. The changes are of one table, whose schema this is, as
    /// the view of the unit shows it; a table that is created brings its own. Changes of several tables,
    /// or without a schema, are refused like want of memory. On an error all units stay. `TooMany` comes
    /// exactly where the unit would have more than 65,535 claims, unless memory is refused.
    pub fn keep(
        &mut self,
        owner: &Owner,
        claims: Vec<Claim>,
        schema: Option<&Arc<Schema, Global>>,
        changes: Vec<Change>,
    ) -> Result<(), KeepError>
        ensures { Keeps result (plain_owner owner.now) claims.items (map change_of changes.items) self.old self.new }
    {
        match place(self.entries.as_slice(), owner) {
            Ok(at) => row::go_on(
                &mut self.entries,
                &mut self.claims,
                at,
                owner,
                claims,
                self.alloc,
                schema,
                changes,
            ),
            Err(_) if claims.is_empty() && changes.is_empty() => Ok(()),
            Err(at) => match first(self.alloc, schema, changes) {
                Ok(changes) => row::begin(
                    &mut self.entries,
                    &mut self.claims,
                    at,
                    owner,
                    claims,
                    changes,
                ),
                Err(AllocError) => Err(KeepError::NoMemory),
            },
        }
    }

    /// An owner's unit ends, with its claims; its changes are handed out. Takes no memory.
    pub fn end(&mut self, owner: &Owner) -> UnitChanges
        ensures changes { result ≡ (unit_of (plain_owner owner.now) self.old).changes }
        ensures ended { self.new ≡ without (plain_owner owner.now) self.old }
    {
        match place(self.entries.as_slice(), owner) {
            Ok(at) => row::end(&mut self.entries, &mut self.claims, at, owner),
            Err(_) => UnitChanges::new(self.alloc),
        }
    }

    /// The unit of a branch that was found in doubt is as it was when the branch was prepared: it has
    /// these changes, and of these claims each once. There is no limit on their number. A unit with
    /// neither is not listed. Memory may be refused, also where as many units have work as can be
    /// numbered; all units stay then.
    pub fn restore(
        &mut self,
        xid: Xid,
        changes: UnitChanges,
        claims: Vec<Claim>,
    ) -> Result<(), AllocError>
        requires idle { has_work (unit_of (global xid) self.old) ≡ false }
        ensures ok { OnOk result (self.new ≡ set_unit (global xid) (record { changes = changes; claims = all_added [] claims.items }) self.old) }
        ensures err { OnErr result (self.new ≡ self.old) }
    {
        let owner = Owner::Global(xid);
        match place(self.entries.as_slice(), &owner) {
            Ok(_) => unreachable!(),
            Err(_) if claims.is_empty() && changes.is_empty() => Ok(()),
            Err(at) => row::restore(
                &mut self.entries,
                &mut self.claims,
                at,
                &owner,
                claims,
                changes,
            ),
        }
    }
}
