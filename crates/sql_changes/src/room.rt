//! The bytes of changes.

ghost use Rattle.std.specs.Prelude.{◌≡◌, length, map, nat_le};
ghost use Rattle.std.specs.List.{flat_map};
ghost use Rattle.tables.specs.Change.{change_bytes};
ghost use Rattle.tables.specs.ChangeView.{change_of};

use tables::Change;

/// Whether the changes have no more bytes than are left.
pub(crate) fn have_room(changes: &[Change], left: usize) -> bool
    ensures { result ≡ nat_le (length (flat_map change_bytes (map change_of changes.now))) left }
{
    let mut room = left;
    let mut rest = changes;
    'changes: while let [change, after @ ..] = rest {
        let length = change.length();
        if length > room {
            return false;
        }
        room -= length;
        rest = after;
    }
    true
}
