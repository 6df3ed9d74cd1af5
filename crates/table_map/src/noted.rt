//! The rows that a table's pages have, which clauses alone read.

ghost use Rattle.std.specs.Prelude.{◌≡◌, ℕ, List, [], ◌∷◌, ◌++◌};

use crate::TablePages;
use drda_words::GhostValue;
use row_pages::KeptPage;
use std::marker::Model;

/// A list of rows, as clauses see it.
#[derive(Drop)]
pub struct ListedRows {}

impl Model for ListedRows {
    ghost Value = { List (List ℕ) };

    ghost view = { λ _. [] };
}

/// Rows that were read from pages, or laid into them, in their order. It takes no memory.
#[derive(Drop)]
pub struct NotedRows {
    pub listed: GhostValue<ListedRows>,
}

impl NotedRows {
    /// No rows.
    pub fn none() -> NotedRows
        ensures { result.listed.value ≡ [] }
    {
        NotedRows {
            listed: GhostValue::of(&()),
        }
    }

    /// One row more, behind the others.
    pub fn note(&mut self, row: &[u8])
        ensures { self.new.listed.value ≡ self.old.listed.value ++ row.now ∷ [] }
    {
        self.listed.set(&row);
    }

    /// All rows of a page more, behind the others.
    pub fn note_page(&mut self, page: &KeptPage)
        ensures { self.new.listed.value ≡ self.old.listed.value ++ page.now.rows }
    {
        self.listed.set(&page);
    }
}

/// The pages of a table, and the rows that were read from them or laid into them.
#[derive(Drop)]
pub struct NotedPages {
    pub pages: TablePages,
    pub rows: NotedRows,
}
