//! Which rows are read ahead of a statement.

ghost use Rattle.std.specs.Prelude.{◌≡◌};
ghost use Rattle.unit_statements.specs.Sight.{IsClaimed, asked_by, asked_in, looks_through};

use ahead_view::Wanted;
use sql_text::Command;
use unit_locks::Claim;

/// Which committed rows a statement asks for that claims this: the row of the key that it claims. Where
/// it claims all of a table, SELECT, UPDATE and DELETE ask for all rows of it, while INSERT and CREATE
/// TABLE ask for none.
pub(crate) fn wanted<'a>(command: &Command<'_>, claims: &'a [Claim]) -> Wanted<'a>
    ensures claimed { IsClaimed result claims.now }
    ensures exact { asked_in result ≡ asked_by command.now claims.now }
{
    let [claim] = claims else {
        return Wanted::Nothing;
    };
    let Ok(table) = str::from_utf8(claim.table()) else {
        return Wanted::Nothing;
    };
    match claim.key() {
        Some(key) => Wanted::Row { table, key },
        None if looks_through(command) => Wanted::Rows { table },
        None => Wanted::Nothing,
    }
}

// Whether a statement looks at each row of a table that it claims whole.
fn looks_through(command: &Command<'_>) -> bool
    ensures { result ≡ looks_through command.now }
{
    match command {
        Command::Update { .. } | Command::Delete { .. } | Command::Select { .. } => true,
        Command::Create { .. } | Command::Insert { .. } => false,
    }
}
