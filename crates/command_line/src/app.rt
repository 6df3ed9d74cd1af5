//! The grammar of the words.

ghost use Rattle.std.specs.Prelude.{◌≡◌, IfOk};
ghost use Rattle.clap.specs.Words.{app_of};
ghost use Rattle.command_line.specs.Grammar as grammar;

use crate::word::{Kind, Word, arg_of};
use clap::Command;
use std::alloc::{AllocError, Global};

/// A subcommand.
#[derive(Clone, Copy)]
struct Subcommand<'a, 'w> {
    name: &'a str,
    /// What help tells of it.
    about: &'a str,
    words: &'w [Word<'a>],
}

const STORE_NAME: &str = "The name of the database: 1 to 18 printable characters without blanks";

const STORE: Word<'static> = Word {
    id: "path",
    kind: Kind::NeededWord,
    help: "The file of the store",
};

const USER: Word<'static> = Word {
    id: "user",
    kind: Kind::Option("U:P"),
    help: "The user and the password, split at the first colon; other users of this machine can read it: better --user-file",
};

const USER_FILE: Word<'static> = Word {
    id: "user-file",
    kind: Kind::Option("FILE"),
    help: "A file whose one line is U:P, on which nobody but its owner has rights; in place of --user",
};

static INIT: [Word<'static>; 3] = [
    Word {
        id: "path",
        kind: Kind::NeededWord,
        help: "The file that is made; none may be there",
    },
    Word {
        id: "size",
        kind: Kind::NeededOption("N"),
        help: "Its bytes, 2097152 to 1073741824",
    },
    Word {
        id: "rdb",
        kind: Kind::NeededOption("NAME"),
        help: STORE_NAME,
    },
];

static PIPE: [Word<'static>; 4] = [
    Word {
        id: "path",
        kind: Kind::Word,
        help: "The file of the store; without it, a new store in memory",
    },
    Word {
        id: "rdb",
        kind: Kind::OptionOr("NAME", "RDB"),
        help: STORE_NAME,
    },
    USER,
    USER_FILE,
];

static SERVE: [Word<'static>; 11] = [
    STORE,
    Word {
        id: "port",
        kind: Kind::NeededOption("N"),
        help: "The port of 127.0.0.1, 0 to 65535; 0 lets the system pick one",
    },
    USER,
    USER_FILE,
    Word {
        id: "count",
        kind: Kind::Option("N"),
        help: "Ends after so many conversations, 0 to 18446744073709551615",
    },
    Word {
        id: "idle",
        kind: Kind::Option("N"),
        help: "Closes a connection that has sent nothing, or taken nothing, for so many seconds, 1 to 4294967",
    },
    Word {
        id: "login",
        kind: Kind::OptionOr("N", "30"),
        help: "Closes a connection that has not opened the database within so many seconds, 1 to 4294967",
    },
    Word {
        id: "cursor-bytes",
        kind: Kind::OptionOr("N", "536870912"),
        help: "Keeps so many bytes of rows for the cursors of a connection: a query that wants more is refused",
    },
    Word {
        id: "all-bytes",
        kind: Kind::OptionOr("N", "1073741824"),
        help: "Keeps so many bytes of commands and of rows for all connections together: what wants more is refused",
    },
    Word {
        id: "log",
        kind: Kind::Flag,
        help: "Tells on standard error what becomes of conversations, a line each",
    },
    Word {
        id: "end-when-failed",
        kind: Kind::Flag,
        help: "Ends, with status 2, once the device has failed",
    },
];

static GROW: [Word<'static>; 3] = [
    STORE,
    Word {
        id: "new",
        kind: Kind::NeededWord,
        help: "The file that is made; none may be there",
    },
    Word {
        id: "size",
        kind: Kind::NeededOption("N"),
        help: "Its bytes, as many as the store has at least, and 1073741824 at most",
    },
];

static STORE_ALONE: [Word<'static>; 1] = [STORE];

static NOTHING: [Word<'static>; 0] = [];

static DECIDE: [Word<'static>; 5] = [
    STORE,
    Word {
        id: "xid",
        kind: Kind::NeededWord,
        help: "Its XID, FORMAT:GLOBAL:BRANCH; or FORMAT alone, in the first of the three words that indoubt prints",
    },
    Word {
        id: "decision",
        kind: Kind::NeededWord,
        help: "commit or rollback; behind FORMAT alone, GLOBAL",
    },
    Word {
        id: "branch",
        kind: Kind::Word,
        help: "BRANCH, behind FORMAT and GLOBAL alone",
    },
    Word {
        id: "last",
        kind: Kind::Word,
        help: "commit or rollback, behind three words",
    },
];

fn command<'a>(alloc: Global, subcommand: &Subcommand<'a, '_>) -> Result<Command<'a>, AllocError>
    ensures { IfOk result (grammar.IsCommand (grammar.app_for subcommand.now)) }
{
    let mut command = Command::new(alloc, subcommand.name).about(subcommand.about);
    for word in subcommand.words {
        command = command.arg(arg_of(alloc, word))?;
    }
    Ok(command)
}

// The program with these subcommands.
fn with_all<'a>(
    alloc: Global,
    program: Command<'a>,
    subcommands: &[Subcommand<'a, '_>],
) -> Result<Command<'a>, AllocError>
    ensures { IfOk result (λ c. app_of c ≡ grammar.with_all (app_of program.entry) subcommands.now) }
{
    let mut program = program;
    for subcommand in subcommands {
        program = program.subcommand(command(alloc, subcommand)?)?;
    }
    Ok(program)
}

/// The grammar.
#[tactic(auto, unfolding(crate::specs::Grammar::with_all, crate::specs::Grammar::with_words))]
pub(crate) fn drdad<'a>(alloc: Global) -> Result<Command<'a>, AllocError>
    ensures { IfOk result (λ c. app_of c ≡ grammar.drdad) }
{
    let program = Command::new(alloc, "drdad")
        .about("A DRDA application server")
        .subcommand_required(true);
    with_all(
        alloc,
        program,
        &[
            Subcommand {
                name: "init",
                about: "Makes a store",
                words: &INIT,
            },
            Subcommand {
                name: "pipe",
                about: "Serves event records from standard input to standard output",
                words: &PIPE,
            },
            Subcommand {
                name: "serve",
                about: "Serves conversations on a port of this machine",
                words: &SERVE,
            },
            Subcommand {
                name: "indoubt",
                about: "Lists the units in doubt of a store",
                words: &STORE_ALONE,
            },
            Subcommand {
                name: "decide",
                about: "Decides a unit in doubt of a store, in the place of its transaction manager",
                words: &DECIDE,
            },
            Subcommand {
                name: "room",
                about: "Tells the name and the size of a store, the bytes that it has left for records, and how many units are in doubt",
                words: &STORE_ALONE,
            },
            Subcommand {
                name: "check",
                about: "Tells whether a store is whole",
                words: &STORE_ALONE,
            },
            Subcommand {
                name: "tables",
                about: "Prints the CREATE TABLE of each table of a store, with its rows and pages in a comment",
                words: &STORE_ALONE,
            },
            Subcommand {
                name: "dump",
                about: "Prints the SQL that makes the tables of a store anew",
                words: &STORE_ALONE,
            },
            Subcommand {
                name: "grow",
                about: "Moves a store into a new and larger file",
                words: &GROW,
            },
            Subcommand {
                name: "version",
                about: "Tells the version of the program",
                words: &NOTHING,
            },
        ],
    )
}
