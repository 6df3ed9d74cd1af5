//! What is to be recorded.

use tables::Change;
use unit_locks::Claim;
use xa_calls::Xid;
use xa_manager::Decision;

/// What becomes of a unit of work, as its record says it. Contracts see it by `said_by`.
#[derive(Clone, Copy, Debug)]
pub enum RecordContents<'a> {
    /// A unit commits, with these changes in their order.
    Commit {
        changes: &'a [Change],
    },
    /// The branch of the XID is prepared: the changes of its unit, in their order, and its claims,
    /// reading ones too.
    Prepare {
        xid: &'a Xid,
        changes: &'a [Change],
        claims: &'a [Claim],
    },
    /// The branch of the XID, which is in doubt, is decided.
    Decide {
        xid: &'a Xid,
        decision: Decision,
    },
    /// The branch of the XID is decided heuristically.
    Heuristic {
        xid: &'a Xid,
        decision: Decision,
    },
    /// The branch of the XID, which was decided heuristically, is forgotten.
    Forget {
        xid: &'a Xid,
    },
}
