//! SQLDARDs.

ghost use Rattle.std.specs.Prelude.{◌≡◌, map, true};
ghost use Rattle.core_calls.specs.Described.{columns_of};
ghost use Rattle.row_values.specs.Column.{column_of};
ghost use Rattle.sqlam_replies.specs.Sqldard.{are_described};
ghost use Rattle.command_kit.specs.Reply as spec;

use crate::reply_text::ReplyText;
use core_calls::OutputColumns;
use row_values::Column;
use sqlam_replies::{ReplyKind, selected_sqldard, sqldard};
use std::alloc::AllocError;

/// The SQLDARD of columns, at most 128, with names of at most 30 bytes: of at most `MAX_SQLDARD_LENGTH` bytes.
/// Names are answered as UTF-8 with `unicode`, else in code page 500.
#[derive(Clone, Copy)]
pub struct ColumnDescription<'a> {
    pub unicode: bool,
    pub columns: &'a [Column],
}

impl<'a> ReplyText for ColumnDescription<'a> {
    ghost reply = { λ d. spec.description d.unicode (map column_of d.columns.now) };

    ghost most = { λ _. 8072 };

    ghost can_write = { λ d. are_described (map column_of d.columns.now) ≡ true };

    fn kind(&self) -> ReplyKind {
        ReplyKind::Object
    }

    fn severity(&self) -> u16 {
        0
    }

    fn write(&self, out: &mut Vec<u8>) -> Result<(), AllocError> {
        sqlam_replies::laws::texts_have_lengths();
        sqldard(out, self.unicode, self.columns)
    }
}

/// The SQLDARD of what is selected, of at most `MAX_SQLDARD_LENGTH` bytes. Names are answered as UTF-8 with
/// `unicode`, else in code page 500.
#[derive(Clone, Copy)]
pub struct SelectionDescription<'a> {
    pub unicode: bool,
    pub columns: &'a OutputColumns,
}

impl<'a> ReplyText for SelectionDescription<'a> {
    ghost reply = { λ d. spec.description d.unicode (columns_of d.columns.now) };

    ghost most = { λ _. 8072 };

    ghost can_write = { λ _. Unit {0} };

    fn kind(&self) -> ReplyKind {
        ReplyKind::Object
    }

    fn severity(&self) -> u16 {
        0
    }

    fn write(&self, out: &mut Vec<u8>) -> Result<(), AllocError> {
        sqlam_replies::laws::texts_have_lengths();
        let columns = self.columns;
        selected_sqldard(out, self.unicode, columns.schema(), columns.selected())
    }
}
