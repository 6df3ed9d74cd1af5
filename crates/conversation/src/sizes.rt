//! How many bytes the replies to a command take at most.

ghost use Rattle.std.specs.Prelude.{◌≡◌};
ghost use Rattle.drda_commands.specs.Views.{given_of};
ghost use Rattle.conversation.specs.Sizes as spec;

use command_kit::Statements;
use drda_commands::Accepted;

/// The most bytes that the replies to a command take as DSSs: room for them is made before it is done.
pub(crate) fn most_length(accepted: &Accepted<'_>, statements: &Statements) -> usize
    ensures { result ≡ spec.most_length accepted.now.command (given_of accepted.now.given) statements.now }
{
    cursor_commands::most_length(accepted, statements).max(sql_commands::MAX_SYNC_REPLY_LENGTH)
}
