//! Whichever SQL command it is.

ghost use Rattle.std.specs.Prelude.{◌≡◌, ◌≤◌, ◌+◌, OnErr, OnOk, length};
ghost use Rattle.drda_commands.specs.Views.{given_of};
ghost use Rattle.command_kit.specs.Done.{WasDone};
ghost use Rattle.command_kit.specs.Sizes.{written_lengths};
ghost use Rattle.sql_commands.specs.Commands as commands;

use crate::describing::describe;
use crate::ending::end_unit;
use crate::executing::execute;
use crate::preparing::prepare;
use crate::replying::MAX_REPLIES_LENGTH;
use crate::running::execute_immediate;
use command_kit::{Ask, Replies, Statements};
use drda_commands::{Accepted, Command};
use sqlam_replies::UnitEnd;
use std::alloc::{AllocError, Global};

/// Does an SQL command: EXCSQLIMM, PRPSQLSTT, DSCSQLSTT, EXCSQLSTT, RDBCMM or RDBRLLBCK; of any other one,
/// nothing. `rdb` is the database's name as it is answered, of at most 791 bytes; names of columns are
/// answered as UTF-8 with `unicode`, else in code page 500. Out of memory, nothing is asked and nothing
/// changes.
pub fn do_command<A: Ask>(
    alloc: Global,
    accepted: Accepted<'_>,
    rdb: &[u8],
    unicode: bool,
    statements: &mut Statements,
    asker: &mut A,
    replies: &mut Replies,
) -> Result<(), AllocError>
    requires { length rdb.now ≤ 791 }
    ensures ok { OnOk result (WasDone A.asks (commands.doing unicode rdb.now accepted.entry.command (given_of accepted.entry.given) statements.old) asker.old asker.new statements.new replies.old.list replies.new.list) }
    ensures size { OnOk result (written_lengths replies.new.list ≤ written_lengths replies.old.list + MAX_REPLIES_LENGTH) }
    ensures asker { OnErr result (asker.new ≡ asker.old) }
    ensures statements { OnErr result (statements.new ≡ statements.old) }
    ensures replies { OnErr result (replies.new.list ≡ replies.old.list) }
{
    match accepted.command {
        Command::Excsqlimm => execute_immediate(alloc, accepted, rdb, statements, asker, replies),
        Command::Prpsqlstt => prepare(alloc, accepted, unicode, statements, asker, replies),
        Command::Dscsqlstt => describe(alloc, accepted, unicode, statements, asker, replies),
        Command::Excsqlstt => execute(alloc, accepted, rdb, statements, asker, replies),
        Command::Rdbcmm => end_unit(UnitEnd::Committed, rdb, statements, asker, replies),
        Command::Rdbrllbck => end_unit(UnitEnd::RolledBack, rdb, statements, asker, replies),
        _ => Ok(()),
    }
}
