//! The branches in doubt.

ghost use Rattle.rdb_core.specs.InDoubt.{LendsBranch, LendsXid, branches_left, xids_left};

use xa_calls::Xid;
use xa_manager::Branch;

/// The branches in doubt that are left to be lent, by rising bytes of their XIDs.
#[derive(Drop)]
pub struct InDoubt<'a> {
    pub(crate) left: &'a [Branch],
}

impl<'a> InDoubt<'a> {
    /// The next XID, or none where none is left. Takes no memory.
    pub fn next(&mut self) -> Option<&'a Xid>
        ensures { LendsXid (xids_left self.old) result (xids_left self.new) }
    {
        let mut left = self.left;
        while let [branch, rest @ ..] = left {
            left = rest;
            if branch.state.is_in_doubt() {
                self.left = left;
                return Some(&branch.xid);
            }
        }
        self.left = left;
        None
    }

    /// The next XID with the state of its branch, or none where none is left. Takes no memory.
    pub fn next_branch(&mut self) -> Option<&'a Branch>
        ensures { LendsBranch (branches_left self.old) result (branches_left self.new) }
    {
        let mut left = self.left;
        while let [branch, rest @ ..] = left {
            left = rest;
            if branch.state.is_in_doubt() {
                self.left = left;
                return Some(branch);
            }
        }
        self.left = left;
        None
    }
}
