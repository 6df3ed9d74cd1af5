//! How many bytes the bodies of records have.

ghost use Rattle.std.specs.Prelude.{◌≡◌, ◌-◌, ◌^◌, ◌≤◌, Some, min, length, map};
ghost use Rattle.std.specs.List.{AllByRecursion, flat_map};
ghost use Rattle.tables.specs.Change.{change_bytes};
ghost use Rattle.tables.specs.ChangeView.{change_of};
ghost use Rattle.unit_locks.specs.Claim.{IsClaim, claim_bytes};
ghost use Rattle.xa_calls.specs.Xid.{IsXid, xid_in};
ghost use Rattle.xa_manager.specs.declared.due.Decision.{Decision as DecisionIs};
ghost use Rattle.unit_records.specs.Records.{committed, decided, forgotten, prepared, record_bytes};
ghost use Rattle.unit_records.specs.Room.{decision_taken, forgetting_taken, held_in_doubt};

use half_store::Layout;
use tables::Change;
use unit_journal::HEAD_BYTES;
use unit_locks::Claim;
use xa_calls::Xid;

/// The bytes of a number of changes or claims.
const COUNT_BYTES: usize = 4;

/// The byte that says how a branch was decided.
const OUTCOME_BYTES: usize = 1;

/// The length of the body of a commit with these changes, up to 2^64 - 1.
pub fn commit_length(changes: &[Change]) -> usize
    ensures { result ≡ min (length (record_bytes (committed (map change_of changes.now)))) (2 ^ 64 - 1) }
{
    COUNT_BYTES.saturating_add(changes_length(changes))
}

/// The length of the body of a prepare with these changes and claims, up to 2^64 - 1.
pub fn prepare_length(xid: &Xid, changes: &[Change], claims: &[Claim]) -> usize
    ensures length { result ≡ min (length (record_bytes (prepared xid.now (map change_of changes.now) claims.now))) (2 ^ 64 - 1) }
    ensures named { IsXid xid.now }
    ensures claims { AllByRecursion IsClaim claims.now }
{
    (xid_bytes(xid).len() + 2 * COUNT_BYTES)
        .saturating_add(claims_length(claims))
        .saturating_add(changes_length(changes))
}

/// The length of the body of a decision, whichever it is and whoever makes it: 14 to 141.
pub fn decide_length(xid: &Xid) -> usize
    ensures length { (decision : DecisionIs) → result ≡ length (record_bytes (decided xid.now decision)) }
    ensures short { result ≤ 141 }
    ensures named { IsXid xid.now }
{
    xid_bytes(xid).len() + OUTCOME_BYTES
}

/// The length of the body of a forgetting: 13 to 140.
pub fn forget_length(xid: &Xid) -> usize
    ensures length { result ≡ length (record_bytes (forgotten xid.now)) }
    ensures short { result ≤ 140 }
    ensures named { IsXid xid.now }
{
    xid_bytes(xid).len()
}

/// How many bytes of its journal a branch in doubt holds back: those of its decision, and in layout 2 those of its
/// forgetting, too; 20 to 293.
pub fn held_in_doubt(layout: Layout, xid: &Xid) -> usize
    ensures held { result ≡ held_in_doubt layout xid.now }
    ensures short { result ≤ 293 }
{
    match layout {
        Layout::One => held_for_decision(xid),
        Layout::Two => held_for_decision(xid) + held_for_forgetting(xid),
    }
}

/// How many bytes of its journal a branch holds back that was decided heuristically, for its forgetting, which takes
/// so many with its head: 19 to 146.
pub fn held_for_forgetting(xid: &Xid) -> usize
    ensures held { result ≡ forgetting_taken xid.now }
    ensures short { result ≤ 146 }
{
    HEAD_BYTES + xid_bytes(xid).len()
}

/// How many bytes of its journal a branch in doubt holds back for its decision, which takes so many with its
/// head: 20 to 147.
pub fn held_for_decision(xid: &Xid) -> usize
    ensures held { result ≡ decision_taken xid.now }
    ensures short { result ≤ 147 }
{
    HEAD_BYTES + xid_bytes(xid).len() + OUTCOME_BYTES
}

/// The bytes that write an XID.
pub(crate) fn xid_bytes(xid: &Xid) -> &[u8]
    ensures bytes { result.now ≡ xid.now }
    ensures named { IsXid xid.now }
    ensures short { length xid.now ≤ 140 }
{
    let bytes = xid.as_bytes();
    names_a_branch(bytes);
    bytes
}

// Does nothing: the bytes of an XID are one by their parts.
fn names_a_branch(bytes: &[u8])
    requires { xid_in bytes.now ≡ Some bytes.now }
    ensures named { IsXid bytes.now }
    ensures short { length bytes.now ≤ 140 }
{
    xa_calls::laws::one_reading();
}

// The bytes of the changes without their number.
fn changes_length(changes: &[Change]) -> usize
    ensures { result ≡ min (length (flat_map change_bytes (map change_of changes.now))) (2 ^ 64 - 1) }
{
    let mut sum: usize = 0;
    let mut left = changes;
    while let [change, rest @ ..] = left {
        sum = sum.saturating_add(change.length());
        left = rest;
    }
    sum
}

// The bytes of the claims without their number.
fn claims_length(claims: &[Claim]) -> usize
    ensures length { result ≡ min (length (flat_map claim_bytes claims.now)) (2 ^ 64 - 1) }
    ensures good { AllByRecursion IsClaim claims.now }
{
    let mut sum: usize = 0;
    let mut left = claims;
    while let [claim, rest @ ..] = left {
        sum = sum.saturating_add(claim.to_bytes().len());
        left = rest;
    }
    sum
}
