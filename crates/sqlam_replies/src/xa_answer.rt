//! SYNCCRD: what a call of the transaction manager is answered.

ghost use Rattle.std.specs.Prelude.{◌≡◌, ◌<◌, ◌≤◌, ◌+◌, ◌^◌, ◌++◌, OnOk, OnErr, length, map, take, vec_len, vec_capacity};
ghost use Rattle.std.specs.List.{flat_map};
ghost use Rattle.ddm_objects.specs.Writing.{spelled};
ghost use Rattle.ddm_objects.specs.declared.code_point.TheConstants.{XID, PRPHRCLST};
ghost use Rattle.sqlam_replies.specs.Message.{objects, scalar, synccrd, synccrd_with, xid_list};

use ddm_objects::{close, code_point, open, put};
use std::alloc::AllocError;
use xa_calls::Xid;

/// The most branches that are answered at once.
pub const MAX_XIDS: usize = 256;

#[tactic(auto, using(crate::proofs::Sizes::spelled_size))]
fn push_synccrd(out: &mut Vec<u8>, code: i32) -> Result<(), AllocError>
    ensures ok { OnOk result (out.new.items ≡ out.old.items ++ synccrd code) }
    ensures kept { take (vec_len out.old) out.new.items ≡ out.old.items }
    ensures full { OnErr result (vec_capacity out.old < vec_len out.old + length (synccrd code)) }
    ensures capacity { vec_capacity out.old ≤ vec_capacity out.new }
{
    let container = open(out, code_point::SYNCCRD)?;
    put(out, code_point::XARETVAL, &code.to_be_bytes())?;
    close(out, container)
}

/// Appends SYNCCRD with the code that the call returned, 12 bytes. Where memory is refused nothing is
/// appended, and that does not happen where the list has room for them.
pub fn synccrd(out: &mut Vec<u8>, code: i32) -> Result<(), AllocError>
    ensures ok { OnOk result (out.new.items ≡ out.old.items ++ synccrd code) }
    ensures err { OnErr result (out.new.items ≡ out.old.items) }
    ensures full { OnErr result (vec_capacity out.old < vec_len out.old + length (synccrd code)) }
    ensures capacity { vec_capacity out.old ≤ vec_capacity out.new }
{
    let start = out.len();
    let pushed = push_synccrd(out, code);
    if pushed.is_err() {
        out.truncate(start);
    }
    pushed
}

fn push_xids(out: &mut Vec<u8>, xids: &[Xid]) -> Result<(), AllocError>
    ensures ok { OnOk result (out.new.items ≡ out.old.items ++ objects (map (scalar XID) xids.now)) }
    ensures kept { take (vec_len out.old) out.new.items ≡ out.old.items }
    ensures full { OnErr result (vec_capacity out.old < vec_len out.old + length (objects (map (scalar XID) xids.now))) }
    ensures capacity { vec_capacity out.old ≤ vec_capacity out.new }
{
    for xid in xids {
        put(out, code_point::XID, xid.as_bytes())?;
    }
    Ok(())
}

#[tactic(auto, using(crate::proofs::Sizes::spelled_size))]
fn push_xid_list(out: &mut Vec<u8>, xids: &[Xid]) -> Result<(), AllocError>
    requires { length xids.now ≤ 256 }
    ensures ok { OnOk result (out.new.items ≡ out.old.items ++ spelled PRPHRCLST (xid_list xids.now)) }
    ensures kept { take (vec_len out.old) out.new.items ≡ out.old.items }
    ensures full { OnErr result (vec_capacity out.old < vec_len out.old + length (spelled PRPHRCLST (xid_list xids.now))) }
    ensures capacity { vec_capacity out.old ≤ vec_capacity out.new }
{
    let container = open(out, code_point::PRPHRCLST)?;
    put(out, code_point::XIDCNT, &(xids.len() as u16).to_be_bytes())?;
    push_xids(out, xids)?;
    close(out, container)
}

#[tactic(auto, using(crate::proofs::Sizes::spelled_size))]
fn push_synccrd_with(out: &mut Vec<u8>, code: i32, xids: &[Xid]) -> Result<(), AllocError>
    requires { length xids.now ≤ 256 }
    ensures ok { OnOk result (out.new.items ≡ out.old.items ++ synccrd_with code xids.now) }
    ensures kept { take (vec_len out.old) out.new.items ≡ out.old.items }
    ensures full { OnErr result (vec_capacity out.old < vec_len out.old + length (synccrd_with code xids.now)) }
    ensures capacity { vec_capacity out.old ≤ vec_capacity out.new }
{
    let container = open(out, code_point::SYNCCRD)?;
    put(out, code_point::XARETVAL, &code.to_be_bytes())?;
    push_xid_list(out, xids)?;
    close(out, container)
}

/// Appends SYNCCRD with the code that the call returned and the branches in doubt, at most 256. Where
/// memory is refused nothing is appended, and that does not happen where the list has room for the
/// answer.
pub fn synccrd_with(out: &mut Vec<u8>, code: i32, xids: &[Xid]) -> Result<(), AllocError>
    requires { length xids.now ≤ 256 }
    ensures ok { OnOk result (out.new.items ≡ out.old.items ++ synccrd_with code xids.now) }
    ensures err { OnErr result (out.new.items ≡ out.old.items) }
    ensures full { OnErr result (vec_capacity out.old < vec_len out.old + length (synccrd_with code xids.now)) }
    ensures capacity { vec_capacity out.old ≤ vec_capacity out.new }
{
    let start = out.len();
    let pushed = push_synccrd_with(out, code, xids);
    if pushed.is_err() {
        out.truncate(start);
    }
    pushed
}
