//! The XIDs of the branches that are in doubt.

ghost use Rattle.std.specs.Prelude.{◌≡◌, IfOk};
ghost use Rattle.xa_manager.specs.Branch.{IsTable, in_doubt_xids};

use crate::branch::Branch;
use std::alloc::{AllocError, Global};
use xa_calls::Xids;

// The XIDs of those that are in doubt, in their order.
pub(crate) fn xids_in_doubt(alloc: Global, branches: &[Branch]) -> Result<Xids, AllocError>
    requires { IsTable branches.now }
    ensures { IfOk result (λ xids. xids ≡ in_doubt_xids branches.now) }
{
    let mut xids = Vec::new(alloc);
    for branch in branches {
        if branch.state.is_in_doubt() {
            xids.push(branch.xid)?;
        }
    }
    Ok(Xids::of(xids))
}
