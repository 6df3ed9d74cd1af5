//! What the core answers.

use crate::described::{OutputColumns, ParameterTypes};
use crate::refusal::Refusal;
use tables::RowList;
use xa_calls::{XaCode, Xids};

/// What a conversation is answered. The sizes of what is in an answer have bounds that hold of every
/// value of the type: at most 64 columns, 128 parameters and 256 XIDs, and rows of at most 4,000 bytes.
#[derive(Drop)]
pub enum Answer {
    /// The statement was run, and concerned so many rows.
    Count(u32),
    /// The rows of a query.
    Rows(RowList),
    /// The columns of a statement's rows.
    Output(OutputColumns),
    /// The types of a statement's parameters.
    Input(ParameterTypes),
    /// The unit was committed or rolled back, or the conversation's loss was taken note of.
    Done,
    /// The statement is refused.
    Refused(Refusal),
    /// The conversation works in a global unit, which no commit or rollback of its own ends.
    InGlobal,
    /// The return code of an XA call.
    Xa(XaCode),
    /// The XIDs in doubt, ascending by their bytes: the answer to `xa_recover`, whose code is 0.
    InDoubt(Xids),
    /// Out of memory: nothing was done.
    NoMemory,
    /// The journal has no room for the record: nothing was done.
    Full {
        /// The bytes that the record takes and holds.
        need: u64,
        /// The bytes that are left.
        room: u64,
    },
    /// The device failed in this call.
    DeviceFailed,
    /// The core does nothing more until the store is opened again.
    Closed,
}
