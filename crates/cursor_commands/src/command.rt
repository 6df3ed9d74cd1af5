//! The commands on cursors.

ghost use Rattle.std.specs.Prelude.{◌≡◌, ◌≤◌, ◌+◌, OnErr, OnOk, length};
ghost use Rattle.drda_commands.specs.Needs.{Needs};
ghost use Rattle.drda_commands.specs.Views.{given_of};
ghost use Rattle.cursor_commands.specs.Commands as commands;
ghost use Rattle.cursor_commands.specs.Sizes.{most_length};
ghost use Rattle.command_kit.specs.Done.{WasDone};
ghost use Rattle.command_kit.specs.Sizes.{written_lengths};

use crate::closing::close;
use crate::fetching::fetch;
use crate::opening::open;
use command_kit::{Ask, Replies, Statements};
use drda_commands::{Accepted, Command};
use std::alloc::{AllocError, Global};

/// Does a command on a cursor (OPNQRY, CNTQRY, CLSQRY), which brings what it requires, as `judge` says; of any
/// other command nothing. Of the three only OPNQRY asks. The replies take at most `most_length` bytes as DSSs.
/// `rdb` is the database's name as it is answered, of at most 791 bytes. Out of memory, nothing is asked and
/// nothing changes.
pub fn do_command<A: Ask>(
    alloc: Global,
    accepted: Accepted<'_>,
    rdb: &[u8],
    statements: &mut Statements,
    asker: &mut A,
    replies: &mut Replies,
) -> Result<(), AllocError>
    requires rdb { length rdb.now ≤ 791 }
    requires brings { Needs accepted.command (given_of accepted.given) }
    ensures ok { OnOk result (WasDone A.asks (commands.doing rdb.now accepted.entry.command (given_of accepted.entry.given) statements.old) asker.old asker.new statements.new replies.old.list replies.new.list) }
    ensures size { OnOk result (written_lengths replies.new.list ≤ written_lengths replies.old.list + most_length accepted.entry.command (given_of accepted.entry.given) statements.old) }
    ensures asker { OnErr result (asker.new ≡ asker.old) }
    ensures statements { OnErr result (statements.new ≡ statements.old) }
    ensures replies { OnErr result (replies.new.list ≡ replies.old.list) }
{
    match accepted.command {
        Command::Opnqry => open(alloc, accepted, rdb, statements, asker, replies),
        Command::Cntqry => fetch(accepted, rdb, statements, replies),
        Command::Clsqry => close(accepted, rdb, statements, replies),
        _ => Ok(()),
    }
}
