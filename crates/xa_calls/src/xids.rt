//! A list of XIDs that are in doubt.

ghost use Rattle.std.specs.Prelude.{◌≡◌, ◌≤◌, length};

use crate::xid::Xid;
use std::marker::Model;

/// How many branches may be in doubt.
pub const MAX_IN_DOUBT: usize = 256;

/// XIDs that are in doubt, 256 at most.
#[derive(Debug, Drop)]
pub struct Xids {
    xids: Vec<Xid>,
}

impl Model for Xids {
    ghost use Rattle.std.specs.Prelude.{List, ℕ, ◌≤◌, length};

    ghost Value = { List (List ℕ) };

    ghost view = { λ x. x.xids.items };

    ghost invariant = { λ x. length x.xids.items ≤ 256 };
}

impl Xids {
    /// A list of these.
    pub fn of(xids: Vec<Xid>) -> Xids
        requires few { length xids.items ≤ MAX_IN_DOUBT }
        ensures { result ≡ xids.items }
    {
        Xids { xids }
    }

    /// The XIDs.
    pub fn as_slice(&self) -> &[Xid]
        ensures all { result.now ≡ self.now }
        ensures limit { length self.now ≤ MAX_IN_DOUBT }
    {
        &self.xids
    }
}
