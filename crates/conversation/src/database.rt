//! A command on the open database, whichever it is.

ghost use Rattle.std.specs.Prelude.{◌≡◌, ◌≤◌, ◌+◌, OnErr, OnOk, length};
ghost use Rattle.drda_commands.specs.Needs.{Needs};
ghost use Rattle.drda_commands.specs.Views.{given_of};
ghost use Rattle.command_kit.specs.Done.{WasDone};
ghost use Rattle.command_kit.specs.Sizes.{written_lengths};
ghost use Rattle.conversation.specs.Commands as commands;
ghost use Rattle.conversation.specs.Sizes as sizes;

use command_kit::{Ask, Replies, Statements};
use drda_commands::{Accepted, Command};
use std::alloc::{AllocError, Global};

/// Does a command on an open database, which brings what it requires, as `judge` says; of a command that needs
/// none, nothing. The replies take at most `most_length` bytes as DSSs. `rdb` is the database's name as it is
/// answered, of at most 791 bytes; names of columns are answered as UTF-8 with `unicode`, else in code page 500.
/// Out of memory, nothing is asked and nothing changes.
pub(crate) fn do_on_database<A: Ask>(
    alloc: Global,
    accepted: Accepted<'_>,
    rdb: &[u8],
    unicode: bool,
    statements: &mut Statements,
    asker: &mut A,
    replies: &mut Replies,
) -> Result<(), AllocError>
    requires rdb { length rdb.now ≤ 791 }
    requires brings { Needs accepted.command (given_of accepted.given) }
    ensures ok { OnOk result (WasDone A.asks (commands.doing unicode rdb.now accepted.entry.command (given_of accepted.entry.given) statements.old) asker.old asker.new statements.new replies.old.list replies.new.list) }
    ensures size { OnOk result (written_lengths replies.new.list ≤ written_lengths replies.old.list + sizes.most_length accepted.entry.command (given_of accepted.entry.given) statements.old) }
    ensures asker { OnErr result (asker.new ≡ asker.old) }
    ensures statements { OnErr result (statements.new ≡ statements.old) }
    ensures replies { OnErr result (replies.new.list ≡ replies.old.list) }
{
    match accepted.command {
        Command::Opnqry | Command::Cntqry | Command::Clsqry => {
            cursor_commands::do_command(alloc, accepted, rdb, statements, asker, replies)
        }
        Command::Syncctl => { sql_commands::do_sync_control(accepted, statements, asker, replies) }
        _ => sql_commands::do_command(alloc, accepted, rdb, unicode, statements, asker, replies),
    }
}
