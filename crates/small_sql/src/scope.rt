//! The rows that statements work on.

ghost use Rattle.std.specs.Prelude.{◌≡◌, ◌≤◌, IfSome, length, option_map};
ghost use Rattle.sql_semantics.specs.Scope as meant;
ghost use Rattle.small_sql.specs.Scope.{scope_of};

use crate::key::Key;

/// What of its table a statement works on.
#[derive(Drop)]
pub(crate) enum Scope {
    /// The names of all tables.
    Names,
    /// All rows.
    All,
    /// The row of a key.
    One(Key),
}

/// The row of a key where one is given, else all rows.
pub(crate) fn scope_by(key: Option<Vec<u8>>) -> Scope
    requires { IfSome key (λ k. length k.items ≤ 8012) }
    ensures { scope_of result ≡ meant.scope_by (option_map (λ k. k.items) key) }
{
    match key {
        Some(bytes) => Scope::One(Key { bytes }),
        None => Scope::All,
    }
}
