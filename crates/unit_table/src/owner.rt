//! Who owns a unit.

ghost use Rattle.std.specs.Prelude.{◌≡◌};
ghost use Rattle.core_model.specs.Units.{comes_before, same_owner};
ghost use Rattle.unit_table.specs.Owner.{plain_owner};

use xa_calls::Xid;

/// A unit's owner. Contracts see it by `plain_owner`.
#[derive(Clone, Copy, Debug)]
pub enum Owner {
    /// The conversation of this number, whose local unit it is.
    Local(u64),
    /// The branch of this XID.
    Global(Xid),
}

impl Owner {
    /// Whether both are the same.
    pub fn is(&self, other: &Owner) -> bool
        ensures { result ≡ same_owner (plain_owner self.now) (plain_owner other.now) }
    {
        match (self, other) {
            (Owner::Local(one), Owner::Local(two)) => one == two,
            (Owner::Global(one), Owner::Global(two)) => one == two,
            (Owner::Local(_), Owner::Global(_)) | (Owner::Global(_), Owner::Local(_)) => false,
        }
    }

    /// Whether this one is listed before the other: local units by their conversations, then those of
    /// XIDs by their bytes.
    pub(crate) fn comes_before(&self, other: &Owner) -> bool
        ensures { result ≡ comes_before (plain_owner self.now) (plain_owner other.now) }
    {
        match (self, other) {
            (Owner::Local(one), Owner::Local(two)) => one < two,
            (Owner::Global(one), Owner::Global(two)) => one.cmp(two).is_lt(),
            (Owner::Local(_), Owner::Global(_)) => true,
            (Owner::Global(_), Owner::Local(_)) => false,
        }
    }
}
