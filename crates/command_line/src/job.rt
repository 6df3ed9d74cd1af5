//! What the words of a command line ask for.

use xa_calls::Xid;
use xa_manager::Decision;

/// Who may open the database.
#[derive(Clone, Copy)]
pub struct Login<'a> {
    /// What stands before the first colon of U:P.
    pub user: &'a str,
    /// What stands behind it.
    pub password: &'a str,
}

/// Where it stands who may open the database.
#[derive(Clone, Copy)]
pub enum LoginSource<'a> {
    /// `--user U:P`: in the words.
    Words(Login<'a>),
    /// `--user-file FILE`: in the file of this path (`login_in_file`).
    File(&'a str),
}

/// How conversations are served.
#[derive(Clone, Copy)]
pub struct ServeOptions {
    /// `--count N`: how many, or without end.
    pub count: Option<u64>,
    /// `--idle N`: for how many seconds a client may send nothing, or take nothing, 1 to 4,294,967, or for ever.
    pub idle: Option<u32>,
    /// `--login N`: within how many seconds of its coming a client must have opened the database, 1 to 4,294,967; 30 where it is not said.
    pub login: u32,
    /// `--cursor-bytes N`: so many bytes of rows are kept for the cursors of a client; 536,870,912 where it is not said.
    pub cursor_bytes: u64,
    /// `--all-bytes N`: so many bytes are kept of commands and of rows for all clients together; 1,073,741,824 where it is not said.
    pub all_bytes: u64,
    /// `--log`: whether it is told on standard error what becomes of them.
    pub is_logged: bool,
    /// `--end-when-failed`: whether serving ends once the device has failed.
    pub ends_when_failed: bool,
}

/// What the words ask for. Contracts see it by `plain_job`.
#[derive(Clone, Copy)]
pub enum Job<'a> {
    /// `init PATH --size N --rdb NAME`: a new store of so many bytes.
    Init {
        path: &'a str,
        size: u64,
        rdb: &'a str,
    },
    /// `pipe [PATH] [--rdb NAME] --user U:P`, or with `--user-file FILE`: event records on the standard
    /// streams, over the store of the path, or over one in memory of this name, which is `RDB` where none
    /// is given.
    Pipe {
        path: Option<&'a str>,
        rdb: &'a str,
        login: LoginSource<'a>,
    },
    /// `serve PATH --port N --user U:P [--count N] [--idle N] [--login N]
    /// [--cursor-bytes N] [--all-bytes N] [--log] [--end-when-failed]`, or with `--user-file FILE`:
    /// conversations over sockets.
    Serve {
        path: &'a str,
        port: u16,
        login: LoginSource<'a>,
        options: ServeOptions,
    },
    /// `indoubt PATH`: the units in doubt of a store.
    InDoubt {
        path: &'a str,
    },
    /// `decide PATH FORMAT:GLOBAL:BRANCH commit|rollback`, or with these parts in words of their own: the unit in doubt of
    /// this XID is decided so, without its transaction manager.
    Decide {
        path: &'a str,
        xid: Xid,
        decision: Decision,
    },
    /// `room PATH`: how much a store holds, and how much more it has room for.
    Room {
        path: &'a str,
    },
    /// `check PATH`: whether a store is whole.
    Check {
        path: &'a str,
    },
    /// `tables PATH`: the tables of a store.
    Tables {
        path: &'a str,
    },
    /// `dump PATH`: the SQL that makes the tables of a store anew.
    Dump {
        path: &'a str,
    },
    /// `grow PATH NEW --size N`: a store is moved into a new file of so many bytes.
    Grow {
        path: &'a str,
        new: &'a str,
        size: u64,
    },
    /// `version`: the version of the program.
    Version,
}
