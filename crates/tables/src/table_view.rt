//! What a statement sees of tables.

ghost use Rattle.std.specs.Prelude.{◌≡◌, Bool, IfErr, IfOk, IsTrue, alloc_error, false, length, option_map, true};
ghost use Rattle.std.specs.Arc.{arc_value};
ghost use Rattle.tables.specs.Tables.{Store, row_of, rows_of, schema_of};
ghost use Rattle.tables.specs.View.{is_store};

use crate::rows::Rows;
use row_values::Schema;
use std::alloc::{AllocError, Global};
use std::sync::Arc;

/// A view of the tables of a store. A call that answers tells of the store truly where the view is
/// faithful: `is_faithful` is a constant of the type, true for tables in memory, and false for
/// tables in a file, of which no contract can say what it holds. A faithful view never tells damage. No call changes the store.
pub trait TableView {
    /// Why a view may not answer: out of memory, or the store is damaged, or what else there is.
    type Fault: From<AllocError>;

    ghost store: { Self → Store };

    ghost is_faithful: { Bool };

    ghost tells_damage: { Self.Fault → Bool };

    /// The schema of the table of this name, where there is one. It is shared with the view.
    fn schema(
        &mut self,
        alloc: Global,
        table: &str,
    ) -> Result<Option<Arc<Schema, Global>>, Self::Fault>
        ensures found { IfOk result (λ schema. IsTrue is_faithful → option_map arc_value schema ≡ schema_of (store self.old) table.now) }
        ensures good { IsTrue is_faithful → is_store (store self.old) ≡ true }
        ensures fault { IfErr result (λ fault. IsTrue is_faithful → tells_damage fault ≡ false) }
        ensures store { store self.new ≡ store self.old };

    /// How many tables there are.
    fn tables(&mut self) -> Result<usize, Self::Fault>
        ensures count { IfOk result (λ n. IsTrue is_faithful → n ≡ length (store self.old)) }
        ensures good { IsTrue is_faithful → is_store (store self.old) ≡ true }
        ensures fault { IfErr result (λ fault. IsTrue is_faithful → tells_damage fault ≡ false) }
        ensures store { store self.new ≡ store self.old };

    /// The row of this key, where the table has it. A table that is not there has no rows.
    fn get(
        &mut self,
        alloc: Global,
        table: &str,
        key: &[u8],
    ) -> Result<Option<Vec<u8>>, Self::Fault>
        ensures found { IfOk result (λ row. IsTrue is_faithful → option_map (λ bytes. bytes.items) row ≡ row_of (store self.old) table.now key.now) }
        ensures good { IsTrue is_faithful → is_store (store self.old) ≡ true }
        ensures fault { IfErr result (λ fault. IsTrue is_faithful → tells_damage fault ≡ false) }
        ensures store { store self.new ≡ store self.old };

    /// All rows of the table, in the order of their keys. A table that is not there has none.
    fn scan(&mut self, alloc: Global, table: &str) -> Result<Rows, Self::Fault>
        ensures rows { IfOk result (λ rows. IsTrue is_faithful → rows ≡ rows_of (store self.old) table.now) }
        ensures good { IsTrue is_faithful → is_store (store self.old) ≡ true }
        ensures fault { IfErr result (λ fault. IsTrue is_faithful → tells_damage fault ≡ false) }
        ensures store { store self.new ≡ store self.old };

    /// Whether the view is faithful. The rows that it gives are then rows of their table's schema, and
    /// need not be judged.
    fn is_trusted(&self) -> bool
        ensures { result ≡ is_faithful };

    /// The fault of a row that is none of its table's schema, which only a view that is not
    /// faithful can meet.
    fn damaged(&self) -> Self::Fault
        ensures { tells_damage result ≡ true };

    ghost memory_is_no_damage: { (fault : Self.Fault) → Self.Fault.from_gives alloc_error fault → tells_damage fault ≡ false };
}
