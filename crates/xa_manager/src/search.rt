//! Where the branch of an XID stands in a table.

ghost use Rattle.std.specs.Prelude.{IfOk, IfErr};
ghost use Rattle.drda_words.specs.Order.{IsRising};
ghost use Rattle.xa_manager.specs.Place.{IsAt, IsGapFor};

use crate::branch::Branch;
use std::cmp::Ordering;
use xa_calls::Xid;

/// Where the branch of an XID stands, or where it would go. By halves, comparing in place.
pub(crate) fn place(branches: &[Branch], xid: &Xid) -> Result<usize, usize>
    requires { IsRising (λ b. b.xid) branches.now }
    ensures found { IfOk result (IsAt branches.now xid.now) }
    ensures absent { IfErr result (IsGapFor branches.now xid.now) }
{
    let mut low = 0;
    let mut high = branches.len();
    while low < high {
        let middle = low + (high - low) / 2;
        match branches[middle].xid.cmp(xid) {
            Ordering::Less => low = middle + 1,
            Ordering::Equal => return Ok(middle),
            Ordering::Greater => high = middle,
        }
    }
    Err(low)
}
