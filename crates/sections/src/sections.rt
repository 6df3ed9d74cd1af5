//! A conversation's sections.

ghost use Rattle.std.specs.Prelude.{◌≡◌, ◌+◌, ◌<◌, [], None, Some, IfErr, IfOk, MatchResult, OnErr, OnOk, option_map};
ghost use Rattle.sections.specs.Blocks.{NextBlock, after_advance};
ghost use Rattle.sections.specs.Cursors.{Closes, Opens, after_close, after_open, after_prepare, after_reserved, cursor_of, meant_cursor, opening_fault, section_of};
ghost use Rattle.sections.specs.Room.{IsShort};
ghost use Rattle.sections.specs.Units.{after_unit};

use crate::cursor::{Block, Cursor};
use crate::fault::{NotPrepared, OpenFault, QueryNotOpen};
use crate::name::Name;
use crate::named;
use crate::section::{Preparation, Section};
use indexmap::IndexMap;
use sql_text::Statement;
use std::alloc::{AllocError, Global};
use std::marker::Model;
use std::mem;
use tables::RowList;

/// The sections of a conversation by their names (all bytes of PKGNAMCSN), each with the statement that was
/// prepared in it and its cursor where one is open.
#[derive(Drop)]
pub struct Sections {
    alloc: Global,
    sections: IndexMap<Name, Section>,
    reserved: Option<Preparation>,
    openings: u64,
}

impl Model for Sections {
    ghost use Rattle.std.specs.Prelude.{◌<◌, IsSome};
    ghost use Rattle.indexmap.specs.IndexMap.{spare};
    ghost use Rattle.sections.specs.Kept.{Sections};
    ghost use Rattle.sql_copies.specs.Stored.{coded_predicate};
    ghost use Rattle.std.specs.Coded.{codes};

    ghost Value = { Sections };

    ghost coded = { Prim.hlevel (codes, coded_predicate) };

    ghost view = { λ s. record { sections = s.sections.entries; reserved = s.reserved; openings = s.openings } };

    // There is room for the statement that waits.
    ghost invariant = { λ s. IsSome s.reserved → 0 < spare s.sections };
}

impl Sections {
    /// No sections yet.
    pub fn new(alloc: Global) -> Sections
        ensures { result ≡ record { sections = []; reserved = None; openings = 0 } }
    {
        Sections {
            alloc,
            sections: IndexMap::new(alloc),
            reserved: None,
            openings: 0,
        }
    }

    /// Prepares a statement in the section of this name, in place of the one that was there, and gives
    /// up one for which room was made. A cursor that is open there stays as it is. Where memory is
    /// refused, nothing changes.
    pub fn prepare(
        &mut self,
        name: &[u8],
        statement: &Statement<'_>,
        is_held: bool,
    ) -> Result<(), AllocError>
        ensures ok { OnOk result (self.new ≡ after_prepare (record { name = name.now; statement = statement.now; is_held = is_held }) self.old) }
        ensures err { OnErr result (self.new ≡ self.old) }
    {
        self.reserve_prepare(name, statement, is_held)?;
        self.prepare_reserved();
        Ok(())
    }

    /// Makes room for a statement in the section of this name, in place of one for which room was made
    /// before, so that `prepare_reserved` takes no memory. Nothing is prepared yet. Where memory is
    /// refused, nothing changes.
    pub fn reserve_prepare(
        &mut self,
        name: &[u8],
        statement: &Statement<'_>,
        is_held: bool,
    ) -> Result<(), AllocError>
        ensures ok { OnOk result (self.new ≡ record self.old { reserved = Some (record { name = name.now; statement = statement.now; is_held = is_held }) }) }
        ensures err { OnErr result (self.new ≡ self.old) }
    {
        let preparation = Preparation::new(self.alloc, name, statement, is_held)?;
        self.sections.reserve(1)?;
        let before = mem::replace(&mut self.reserved, Some(preparation));
        drop(before);
        Ok(())
    }

    /// Prepares the statement for which room was made, if there is one. Takes no memory.
    pub fn prepare_reserved(&mut self)
        ensures { self.new ≡ after_reserved self.old }
    {
        match self.reserved.take() {
            Some(preparation) => named::prepare(&mut self.sections, preparation),
            None => {}
        }
    }

    /// Gives up the statement for which room was made. Takes no memory.
    pub fn drop_reserved(&mut self)
        ensures { self.new ≡ record self.old { reserved = None } }
    {
        drop(self.reserved.take());
    }

    /// The statement that is prepared in the section of this name, or `NotPrepared` where there is none.
    pub fn statement(&self, name: &[u8]) -> Result<&Statement<'static>, NotPrepared>
        ensures { MatchResult result (λ statement. option_map (λ section. section.statement) (section_of name.now self.now) ≡ Some statement.now) (λ _. section_of name.now self.now ≡ None) }
    {
        match named::find(&self.sections, name) {
            Some(section) => Ok(section.statement()),
            None => Err(NotPrepared),
        }
    }

    /// Whether a cursor can be opened in the section of this name: no memory is taken then, so nothing
    /// has to be made room for. `NotPrepared` comes first, then `QueryOpen`, and `NoInstance` once 2^64 - 1
    /// cursors have been opened.
    pub fn check_opening(&self, name: &[u8]) -> Result<(), OpenFault>
        ensures ok { OnOk result (opening_fault name.now self.now ≡ None) }
        ensures err { IfErr result (λ fault. opening_fault name.now self.now ≡ Some fault) }
    {
        let openings = self.openings;
        match named::find(&self.sections, name) {
            None => Err(OpenFault::NotPrepared),
            Some(section) => {
                if section.cursor().is_some() {
                    Err(OpenFault::QueryOpen)
                } else if openings == u64::MAX {
                    Err(OpenFault::NoInstance)
                } else {
                    Ok(())
                }
            }
        }
    }

    /// Opens a cursor over these rows where `check_opening` allows it, and gives its instance number
    /// (QRYINSID): the conversation's first cursor has 1. Takes no memory.
    pub fn open_reserved(&mut self, name: &[u8], rows: RowList, block_size: u32) -> u64
        requires { opening_fault name.now self.old ≡ None }
        ensures number { result ≡ self.old.openings + 1 }
        ensures after { self.new ≡ after_open name.now rows block_size self.old }
    {
        self.openings += 1;
        let instance = self.openings;
        named::begin(&mut self.sections, name, rows, instance, block_size);
        instance
    }

    /// Opens a cursor over these rows, or says why none can be opened (`check_opening`); then nothing
    /// changes. Takes no memory.
    pub fn open_cursor(
        &mut self,
        name: &[u8],
        rows: RowList,
        block_size: u32,
    ) -> Result<u64, OpenFault>
        ensures { Opens self.old name.now rows block_size result self.new }
    {
        match self.check_opening(name) {
            Ok(()) => Ok(self.open_reserved(name, rows, block_size)),
            Err(fault) => Err(fault),
        }
    }

    // The open cursor of the section of this name, if it has this instance number where one is given.
    fn cursor(&self, name: &[u8], instance: Option<u64>) -> Result<&Cursor, QueryNotOpen>
        ensures { MatchResult result (λ cursor. meant_cursor name.now instance self.now ≡ Some cursor.now) (λ _. meant_cursor name.now instance self.now ≡ None) }
    {
        match named::find(&self.sections, name) {
            Some(section) => match section.cursor() {
                Some(cursor) => {
                    if cursor.is_meant(instance) {
                        Ok(cursor)
                    } else {
                        Err(QueryNotOpen)
                    }
                }
                None => Err(QueryNotOpen),
            },
            None => Err(QueryNotOpen),
        }
    }

    /// The rows that the cursor sends next: a block of this size in bytes (QRYBLKSZ), or of the size of
    /// the one before. Its place does not move: `advance` moves it once the rows are written.
    /// `QueryNotOpen` where the section has no open cursor, or another instance number is given.
    /// QRYDSC has at most `MAX_QRYDSC_LENGTH` bytes, and QRYDTA with the block `MAX_QRYDTA_HEADING`
    /// more than the block's size or than `MAX_ANSWER_ROW_LENGTH`.
    pub fn next_block(
        &self,
        name: &[u8],
        instance: Option<u64>,
        size: Option<u32>,
    ) -> Result<Block<'_>, QueryNotOpen>
        ensures next { NextBlock self.now name.now instance size result }
        ensures short { IfOk result IsShort }
    {
        match self.cursor(name, instance) {
            Ok(cursor) => Ok(cursor.block(size)),
            Err(fault) => Err(fault),
        }
    }

    /// Puts the cursor behind so many more rows, which were sent in a block of this size, and closes it
    /// where none remains. Takes no memory.
    pub fn advance(&mut self, name: &[u8], count: usize, size: u32)
        ensures { self.new ≡ after_advance name.now count size self.old }
    {
        named::advance(&mut self.sections, name, count, size);
    }

    /// Closes the cursor. `QueryNotOpen` where the section has no open cursor, or another instance
    /// number is given; then nothing changes. Takes no memory.
    pub fn close(&mut self, name: &[u8], instance: Option<u64>) -> Result<(), QueryNotOpen>
        ensures { Closes self.old name.now instance result self.new }
    {
        match self.cursor(name, instance) {
            Ok(_) => {
                named::close(&mut self.sections, name);
                Ok(())
            }
            Err(fault) => Err(fault),
        }
    }

    /// Closes the cursors that the end of a unit closes: those that are not held where it keeps the held
    /// ones (a successful RDBCMM), and all where it does not (RDBRLLBCK, the end of an XA association).
    /// Prepared statements stay. Takes no memory.
    pub fn end_unit(&mut self, keeps_held: bool)
        ensures { self.new ≡ after_unit keeps_held self.old }
    {
        named::end_unit(&mut self.sections, keeps_held);
    }
}
