//! What a conversation asks of the core.

use row_values::Value;
use sql_text::Statement;
use xa_calls::{InvalidRequest, Request};

/// How many markers, and so parameters, a statement has at most.
pub const MAX_PARAMETERS: usize = 128;

/// Which side of a statement is described.
#[derive(Clone, Copy, Debug, PartialEq, Eq)]
pub enum Side {
    /// The columns of its rows.
    Output,
    /// Its parameters.
    Input,
}

/// What a conversation asks of the core. Statements and parameters are lent, for `'a`; what a statement
/// borrows lives as long as `'s`, what a parameter borrows as long as `'v`, so that a statement that was
/// kept can be asked with the values of one command. Nothing in a call owns memory: a call can be lent
/// itself, and copied.
#[derive(Clone, Copy)]
pub enum CoreCall<'a, 's, 'v> {
    /// A statement that is no SELECT is run, with these values for its markers (DDM EXCSQLIMM and
    /// EXCSQLSTT).
    Run {
        statement: &'a Statement<'s>,
        parameters: &'a [Value<'v>],
    },
    /// A SELECT is evaluated, with these values for its markers (DDM OPNQRY).
    Query {
        statement: &'a Statement<'s>,
        parameters: &'a [Value<'v>],
    },
    /// The columns or the parameters of a statement are described (DDM DSCSQLSTT, and PRPSQLSTT with
    /// RTNSQLDA).
    Describe {
        statement: &'a Statement<'s>,
        side: Side,
    },
    /// The local unit is committed (DDM RDBCMM).
    Commit,
    /// The local unit is rolled back (DDM RDBRLLBCK).
    RollBack,
    /// An XA call, as `Request::read` reads a SYNCCTL: one that names no call is answered here too.
    Xa(Result<Request, InvalidRequest>),
    /// The conversation is lost.
    Lost,
}
