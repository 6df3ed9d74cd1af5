//! Reading the bodies of records.

ghost use Rattle.std.specs.Prelude.{◌≡◌, ◌≢◌, [], ◌∷◌, IfNone, IfSome};
ghost use Rattle.unit_journal.specs.declared.kind.Kind.TheVariants as kind;
ghost use Rattle.xa_manager.specs.declared.due.Decision.{Decision as DecisionIs};
ghost use Rattle.unit_records.specs.Records.{decision_byte};
ghost use Rattle.unit_records.specs.Read.{ReadsRecord};

use crate::fronts::{take_changes, take_claims, take_xid};
use crate::record::UnitRecord;
use row_values::ReadError;
use std::alloc::Global;
use xa_manager::Decision;

/// The byte of a decision to commit.
const COMMIT: u8 = 1;

/// The byte of a decision to roll back.
const ROLL_BACK: u8 = 2;

/// Nothing but changes.
pub(crate) fn read_commit(alloc: Global, body: &[u8]) -> Result<UnitRecord, ReadError>
    ensures { ReadsRecord kind.Commit body.now result }
{
    crate::laws::parts_stand_once();
    let (changes, rest) = match take_changes(alloc, body) {
        Ok(taken) => taken,
        Err(error) => return Err(error),
    };
    if !rest.is_empty() {
        return Err(ReadError::Damaged);
    }
    Ok(UnitRecord::Commit { changes })
}

/// An XID, claims and changes.
pub(crate) fn read_prepare(alloc: Global, body: &[u8]) -> Result<UnitRecord, ReadError>
    ensures { ReadsRecord kind.Prepare body.now result }
{
    crate::laws::parts_stand_once();
    let (xid, rest) = match take_xid(body) {
        Ok(taken) => taken,
        Err(error) => return Err(error),
    };
    let (claims, rest) = match take_claims(alloc, rest) {
        Ok(taken) => taken,
        Err(error) => return Err(error),
    };
    let (changes, rest) = match take_changes(alloc, rest) {
        Ok(taken) => taken,
        Err(error) => return Err(error),
    };
    if !rest.is_empty() {
        return Err(ReadError::Damaged);
    }
    Ok(UnitRecord::Prepare {
        xid,
        changes,
        claims,
    })
}

/// An XID and a byte.
pub(crate) fn read_decide(body: &[u8]) -> Result<UnitRecord, ReadError>
    ensures { ReadsRecord kind.Decide body.now result }
{
    crate::laws::parts_stand_once();
    let (xid, rest) = match take_xid(body) {
        Ok(taken) => taken,
        Err(error) => return Err(error),
    };
    match decision_in(rest) {
        Some(decision) => Ok(UnitRecord::Decide { xid, decision }),
        None => Err(ReadError::Damaged),
    }
}

/// An XID and a byte, as of a decision.
pub(crate) fn read_heuristic(body: &[u8]) -> Result<UnitRecord, ReadError>
    ensures { ReadsRecord kind.Heuristic body.now result }
{
    crate::laws::parts_stand_once();
    let (xid, rest) = match take_xid(body) {
        Ok(taken) => taken,
        Err(error) => return Err(error),
    };
    match decision_in(rest) {
        Some(decision) => Ok(UnitRecord::Heuristic { xid, decision }),
        None => Err(ReadError::Damaged),
    }
}

/// An XID alone.
pub(crate) fn read_forget(body: &[u8]) -> Result<UnitRecord, ReadError>
    ensures { ReadsRecord kind.Forget body.now result }
{
    crate::laws::parts_stand_once();
    let (xid, rest) = match take_xid(body) {
        Ok(taken) => taken,
        Err(error) => return Err(error),
    };
    if !rest.is_empty() {
        return Err(ReadError::Damaged);
    }
    Ok(UnitRecord::Forget { xid })
}

// The decision whose byte stands here, and nothing else.
fn decision_in(bytes: &[u8]) -> Option<Decision>
    ensures some { IfSome result (λ decision. bytes.now ≡ decision_byte decision ∷ []) }
    ensures none { IfNone result ((decision : DecisionIs) → bytes.now ≢ decision_byte decision ∷ []) }
{
    let [code] = bytes else {
        return None;
    };
    match *code {
        COMMIT => Some(Decision::Commit),
        ROLL_BACK => Some(Decision::RollBack),
        _ => None,
    }
}
