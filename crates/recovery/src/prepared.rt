//! Branches in doubt, by their XIDs.

ghost use Rattle.std.specs.Prelude.{◌≡◌, ◌≤◌, OnOk, Some, bytes_eq, false, is_some, length, map, position};
ghost use Rattle.std.specs.List.{list_any, prefix_len};
ghost use Rattle.std.specs.Ordering.{is_gt, nat_cmp};
ghost use Rattle.std.specs.Cmp.Lexicographic.{slice_cmp};
ghost use Rattle.recovery.specs.Durable.{completed, doubt_of, turned, with_doubt, without_doubt};
ghost use Rattle.recovery.specs.Replay.{doubt_in, doubts_in};

use std::alloc::{AllocError, Global};
use std::mem;
use unit_changes::UnitChanges;
use unit_locks::Claim;
use xa_calls::Xid;
use xa_manager::Decision;

/// What is kept of a branch in doubt: its XID, the changes of its unit, and its claims in the order in which it
/// first made them, reading ones too; and how it was decided heuristically, where it was: then it has neither.
/// Contracts see each claim once, whatever the record repeats.
#[derive(Debug, Drop)]
pub struct PreparedUnit {
    pub xid: Xid,
    pub changes: UnitChanges,
    pub claims: Vec<Claim>,
    pub outcome: Option<Decision>,
}

impl PreparedUnit {
    /// A branch that was decided heuristically. Takes no memory.
    pub(crate) fn completed(alloc: Global, xid: &Xid, decision: Decision) -> PreparedUnit
        ensures { doubt_in result ≡ (xid.now, completed decision) }
    {
        PreparedUnit {
            xid: *xid,
            changes: UnitChanges::new(alloc),
            claims: Vec::new(alloc),
            outcome: Some(decision),
        }
    }
}

/// Where the unit of an XID stands, if it is in doubt.
pub(crate) fn place_of(units: &[PreparedUnit], xid: &Xid) -> Option<usize>
    ensures { result ≡ position (λ u. bytes_eq xid.now u.xid) units.now }
{
    units.iter().position(|unit| *xid == unit.xid)
}

/// Whether the XID is in doubt.
pub(crate) fn is_known(units: &[PreparedUnit], xid: &Xid) -> bool
    ensures { result ≡ is_some (doubt_of (doubts_in units.now) xid.now) }
{
    has(units, xid)
}

// Whether a unit has the XID.
fn has(units: &[PreparedUnit], xid: &Xid) -> bool
    ensures { result ≡ list_any (λ u. bytes_eq xid.now u.xid) units.now }
{
    units.iter().any(|unit| *xid == unit.xid)
}

/// How many units stand before the place of an XID.
pub(crate) fn place_for(units: &[PreparedUnit], xid: &Xid) -> usize
    ensures place { result ≡ prefix_len (λ u. is_gt (slice_cmp nat_cmp xid.now u.xid)) units.now }
    ensures within { result ≤ length units.now }
{
    for i in 0..units.len() {
        if !xid.cmp(&units[i].xid).is_gt() {
            return i;
        }
    }
    units.len()
}

/// Adds a unit whose XID is not in doubt, in its place. Out of memory, nothing is added.
pub(crate) fn add(units: &mut Vec<PreparedUnit>, unit: PreparedUnit) -> Result<(), AllocError>
    requires { is_some (doubt_of (doubts_in units.old.items) unit.xid) ≡ false }
    ensures added { OnOk result (doubts_in units.new.items ≡ with_doubt (doubts_in units.old.items) (doubt_in unit).0 (doubt_in unit).1) }
{
    let place = place_for(units.as_slice(), &unit.xid);
    units.insert(place, unit)?;
    Ok(())
}

/// Sets a unit of the same XID in the place of the one that stands at the XID's place, and gives that one back.
pub(crate) fn replace_at(
    units: &mut Vec<PreparedUnit>,
    xid: &Xid,
    place: usize,
    unit: PreparedUnit,
) -> PreparedUnit
    requires same { unit.xid ≡ xid.now }
    requires place { position (λ u. bytes_eq xid.now u.xid) units.old.items ≡ Some place }
    ensures unit { doubt_of (doubts_in units.old.items) xid.now ≡ Some (doubt_in result).1 }
    ensures turned { doubts_in units.new.items ≡ turned (doubts_in units.old.items) xid.now (doubt_in unit).1 }
{
    mem::replace(&mut units[place], unit)
}

/// Takes the unit out that stands at the place of its XID.
pub(crate) fn take_at(units: &mut Vec<PreparedUnit>, xid: &Xid, place: usize) -> PreparedUnit
    requires { position (λ u. bytes_eq xid.now u.xid) units.old.items ≡ Some place }
    ensures unit { doubt_of (doubts_in units.old.items) xid.now ≡ Some (doubt_in result).1 }
    ensures left { doubts_in units.new.items ≡ without_doubt (doubts_in units.old.items) xid.now }
{
    units.remove(place)
}
