//! Where the unit of an owner stands.

ghost use Rattle.std.specs.Prelude.{◌≡◌, ◌<◌, false, IfErr, IfOk, IfSome};
ghost use Rattle.unit_table.specs.Owner.{plain_owner};
ghost use Rattle.unit_table.specs.Table.{IsAt, IsGapFor, is_given};

use crate::entry::Entry;
use crate::owner::Owner;

/// The number of no unit.
pub(crate) const NOBODY: u16 = u16::MAX;

/// Where the unit of an owner stands, or where it would go.
pub(crate) fn place(entries: &[Entry], owner: &Owner) -> Result<usize, usize>
    ensures found { IfOk result (IsAt (plain_owner owner.now) entries.now) }
    ensures absent { IfErr result (IsGapFor (plain_owner owner.now) entries.now) }
{
    for at in 0..entries.len() {
        let entry = &entries[at];
        if owner.is(&entry.owner) {
            return Ok(at);
        }
        if owner.comes_before(&entry.owner) {
            return Err(at);
        }
    }
    Err(entries.len())
}

/// A number that no unit has: the least one.
pub(crate) fn free_number(entries: &[Entry]) -> Option<u16>
    ensures free { IfSome result (λ n. is_given n entries.now ≡ false) }
    ensures somebody { IfSome result (λ n. n < NOBODY) }
{
    for number in 0..NOBODY {
        if !has_number(entries, number) {
            return Some(number);
        }
    }
    None
}

// Whether some unit has the number.
fn has_number(entries: &[Entry], number: u16) -> bool
    ensures { result ≡ is_given number entries.now }
{
    let mut left = entries;
    while let [first, rest @ ..] = left {
        if first.number == number {
            return true;
        }
        left = rest;
    }
    false
}
