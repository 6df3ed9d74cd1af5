//! A page that is kept, and by which schema it was judged.

ghost use Rattle.std.specs.Prelude.{◌≡◌, ℕ, IsTrue, Some, true};
ghost use Rattle.std.specs.List.{slice_get};
ghost use Rattle.drda_words.specs.Bytes.{AreBytes};
ghost use Rattle.row_values.specs.Row.{is_row};
ghost use Rattle.row_pages.specs.Judging.{AreJudged};

use crate::judging::{are_same, do_rise};
use crate::kept::KeptPage;
use row_values::{RowRef, Schema};
use std::alloc::Global;
use std::marker::Model;
use std::sync::Arc;

/// A page that is kept. It may carry a mark, the schema by which it was judged: then its rows are rows of
/// that schema whose keys rise, whatever the device, since it is the page in memory that was judged.
/// Contracts see it as its kind and its rows.
#[derive(Drop)]
pub struct JudgedPage {
    page: KeptPage,
    mark: Option<Arc<Schema, Global>>,
}

impl Model for JudgedPage {
    ghost use Rattle.std.specs.Prelude.{IfSome};
    ghost use Rattle.std.specs.Arc.{arc_value};
    ghost use Rattle.row_pages.specs.Page.{Page};
    ghost use Rattle.row_pages.specs.Judging.{AreJudged};

    ghost Value = { Page };

    ghost view = { λ p. p.page };

    ghost invariant = { λ p. IfSome p.mark (λ schema. AreJudged (arc_value schema) p.page.rows) };
}

impl JudgedPage {
    /// A page that was not judged yet.
    pub(crate) fn new(page: KeptPage) -> JudgedPage
        ensures { result ≡ page }
    {
        JudgedPage { page, mark: None }
    }

    /// The page, without its mark.
    pub(crate) fn into_page(self) -> KeptPage
        ensures { result ≡ self }
    {
        let JudgedPage { page, mark: _ } = self;
        page
    }

    /// The page.
    pub fn page(&self) -> &KeptPage
        ensures { result.now ≡ self.now }
    {
        &self.page
    }

    /// Whether it carries the mark of this schema: then its rows are rows of the schema whose keys rise.
    /// No row is looked at.
    pub fn is_marked(&self, schema: &Schema) -> bool
        ensures { IsTrue result → AreJudged schema.now self.now.rows }
    {
        match &self.mark {
            Some(mark) => are_same(mark, schema),
            None => false,
        }
    }

    /// Whether bytes that are a row of the page are known to be a row of this schema. Where the page carries
    /// the schema's mark they are not looked at; else they are judged.
    pub fn is_row(&self, schema: &Schema, row: &[u8]) -> bool
        ensures known { IsTrue result → (number : ℕ) → slice_get self.now.rows number ≡ Some row.now → is_row schema.now row.now ≡ true }
        ensures bytes { AreBytes row.now }
    {
        if self.is_marked(schema) {
            return true;
        }
        RowRef::parse(schema, row).is_ok()
    }

    /// Marks it with the schema, where it does not carry its mark and its rows are rows of it whose keys
    /// rise. A page whose rows are not keeps the mark that it has.
    pub(crate) fn judge(&mut self, schema: &Arc<Schema, Global>)
        ensures { self.new ≡ self.old }
    {
        if self.is_marked(schema) || !do_rise(schema, &self.page) {
            return;
        }
        if let Ok(mark) = Arc::try_clone(schema) {
            self.mark = Some(mark);
        }
    }
}
