//! A record, as it is read.

ghost use Rattle.unit_records.specs.Records.{IsRecord, UnitRecord as RecordIs};
ghost use Rattle.unit_records.specs.Read.{Gives, ReadsRecord};

use crate::read::{read_commit, read_decide, read_forget, read_heuristic, read_prepare};
use row_values::ReadError;
use std::alloc::Global;
use tables::Change;
use unit_journal::Kind;
use unit_locks::Claim;
use xa_calls::Xid;
use xa_manager::Decision;

/// What a record of the journal says of a unit of work.
#[derive(Debug, Drop)]
pub enum UnitRecord {
    /// A unit committed, with these changes in their order.
    Commit {
        changes: Vec<Change>,
    },
    /// The branch of the XID was prepared and is in doubt: the changes of its unit, in their order,
    /// and its claims, reading ones too.
    Prepare {
        xid: Xid,
        changes: Vec<Change>,
        claims: Vec<Claim>,
    },
    /// The branch of the XID, which was in doubt, was decided.
    Decide {
        xid: Xid,
        decision: Decision,
    },
    /// The branch of the XID was decided heuristically.
    Heuristic {
        xid: Xid,
        decision: Decision,
    },
    /// The branch of the XID, which was decided heuristically, was forgotten.
    Forget {
        xid: Xid,
    },
}

impl UnitRecord {
    /// What a record of this kind with this body says. `Damaged` exactly where the body is none of
    /// that kind: a part is damaged, or other bytes than its parts stand in it. Whether the record
    /// has a place among those before it is not judged here.
    pub fn read(alloc: Global, kind: Kind, body: &[u8]) -> Result<UnitRecord, ReadError>
        ensures reads { ReadsRecord kind body.now result }
        ensures gives { (r : RecordIs) → IsRecord kind body.now r → Gives r result }
    {
        crate::laws::records_have_one_reading();
        match kind {
            Kind::Commit => read_commit(alloc, body),
            Kind::Prepare => read_prepare(alloc, body),
            Kind::Decide => read_decide(body),
            Kind::Heuristic => read_heuristic(body),
            Kind::Forget => read_forget(body),
        }
    }
}
