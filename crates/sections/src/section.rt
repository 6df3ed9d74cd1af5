//! A section: a prepared statement, and its cursor where one is open.

ghost use Rattle.std.specs.Prelude.{◌≡◌, None, IfOk, option_copied};
ghost use Rattle.std.specs.Option.{option_and_then};
ghost use Rattle.sections.specs.Units.{section_ended};

use crate::cursor::Cursor;
use crate::name::Name;
use sql_copies::copy_statement;
use sql_text::Statement;
use std::alloc::{AllocError, Global};
use std::marker::Model;
use std::mem;
use tables::RowList;

/// A statement that was prepared, and its cursor where one is open.
#[derive(Drop)]
pub struct Section {
    statement: Box<Statement<'static>>,
    is_held: bool,
    cursor: Option<Cursor>,
}

impl Model for Section {
    ghost use Rattle.std.specs.Coded.{codes};
    ghost use Rattle.sections.specs.Kept.{Section};
    ghost use Rattle.sql_copies.specs.Stored.{coded_predicate};

    ghost Value = { Section };

    ghost coded = { Prim.hlevel (codes, coded_predicate) };

    ghost view = { λ s. record { statement = s.statement.value; is_held = s.is_held; cursor = s.cursor } };
}

impl Section {
    ghost use Rattle.sections.specs.Cursors.{closed, with_cursor};
    ghost use Rattle.sections.specs.Blocks.{section_advanced};

    pub(crate) fn new(statement: Box<Statement<'static>>, is_held: bool) -> Section
        ensures { result ≡ record { statement = statement.entry.value; is_held = is_held; cursor = None } }
    {
        Section {
            statement,
            is_held,
            cursor: None,
        }
    }

    pub(crate) fn prepare(&mut self, statement: Box<Statement<'static>>, is_held: bool)
        ensures { self.new ≡ record self.old { statement = statement.entry.value; is_held = is_held } }
    {
        let before = mem::replace(&mut self.statement, statement);
        drop(before);
        self.is_held = is_held;
    }

    pub(crate) fn statement(&self) -> &Statement<'static>
        ensures { result.now ≡ self.now.statement }
    {
        &self.statement
    }

    pub(crate) fn cursor(&self) -> Option<&Cursor>
        ensures { option_copied result ≡ self.now.cursor }
    {
        self.cursor.as_ref()
    }

    pub(crate) fn begin(&mut self, rows: RowList, instance: u64, block_size: u32)
        ensures { self.new ≡ with_cursor rows instance block_size self.old }
    {
        self.cursor = Some(Cursor::new(rows, instance, self.is_held, block_size));
    }

    pub(crate) fn advance(&mut self, count: usize, size: u32)
        ensures { self.new ≡ section_advanced count size self.old }
    {
        self.cursor = match self.cursor.take() {
            Some(cursor) => cursor.advanced(count, size),
            None => None,
        };
    }

    pub(crate) fn close(&mut self)
        ensures { self.new ≡ closed self.old }
    {
        self.cursor = None;
    }

    pub(crate) fn end_unit(&mut self, keeps_held: bool)
        ensures { self.new ≡ section_ended keeps_held self.old }
    {
        self.cursor = match self.cursor.take() {
            Some(cursor) => cursor.ended(keeps_held),
            None => None,
        };
    }
}

/// A statement with the name of the section in which it is to be prepared.
#[derive(Drop)]
pub struct Preparation {
    name: Name,
    statement: Box<Statement<'static>>,
    is_held: bool,
}

impl Model for Preparation {
    ghost use Rattle.std.specs.Coded.{codes};
    ghost use Rattle.sections.specs.Kept.{Preparation};
    ghost use Rattle.sql_copies.specs.Stored.{coded_predicate};

    ghost Value = { Preparation };

    ghost coded = { Prim.hlevel (codes, coded_predicate) };

    ghost view = { λ p. record { name = p.name; statement = p.statement.value; is_held = p.is_held } };
}

impl Preparation {
    pub(crate) fn new(
        alloc: Global,
        name: &[u8],
        statement: &Statement<'_>,
        is_held: bool,
    ) -> Result<Preparation, AllocError>
        ensures { IfOk result (λ p. p ≡ record { name = name.now; statement = statement.now; is_held = is_held }) }
    {
        Ok(Preparation {
            name: Name::new(name.to_vec(alloc)?),
            statement: Box::new(alloc, copy_statement(alloc, statement)?)?,
            is_held,
        })
    }

    pub(crate) fn name(&self) -> &[u8]
        ensures { result.now ≡ self.now.name }
    {
        self.name.as_slice()
    }

    // The name, and the section that is made where none of this name is there.
    pub(crate) fn into_section(self) -> (Name, Section)
        ensures name { result.0 ≡ self.name }
        ensures section { result.1 ≡ record { statement = self.statement; is_held = self.is_held; cursor = None } }
    {
        let Preparation {
            name,
            statement,
            is_held,
        } = self;
        (name, Section::new(statement, is_held))
    }

    pub(crate) fn prepare_again(self, section: &mut Section)
        ensures { section.new ≡ record section.old { statement = self.statement; is_held = self.is_held } }
    {
        let Preparation {
            name: _,
            statement,
            is_held,
        } = self;
        section.prepare(statement, is_held);
    }
}
