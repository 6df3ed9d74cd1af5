//! What is done to one slot of the tree.

ghost use Rattle.std.specs.Prelude.{◌≡◌, None, OnErr, OnOk, Some, unwrap_or};
ghost use Rattle.std.specs.BTreeMap.{insert_entry};
ghost use Rattle.std.specs.Map.{lookup, remove_entry, set_value};
ghost use Rattle.key_map.specs.Slots.{by_bytes, finds, is_blank, IsInOrder};

use std::alloc::AllocError;
use std::collections::BTreeMap;

/// Makes an empty slot at a key, unless the key has one, by one search.
pub(crate) fn make_slot(
    slots: &mut BTreeMap<Vec<u8>, Option<Vec<u8>>>,
    key: Vec<u8>,
) -> Result<(), AllocError>
    ensures entries { OnOk result (slots.new.entries ≡ insert_entry (λ x y. by_bytes x.items y.items) slots.old.entries key (unwrap_or (lookup (finds key.items) slots.old.entries) None)) }
    ensures kept { OnErr result (slots.new.entries ≡ slots.old.entries) }
    ensures ordered { IsInOrder slots.new }
{
    let _slot = slots.entry(key)?.or_insert(None);
    Ok(())
}

/// Puts a row into a key's slot, or into a new one where the key has none, by one search.
pub(crate) fn put_slot(
    slots: &mut BTreeMap<Vec<u8>, Option<Vec<u8>>>,
    key: Vec<u8>,
    row: Vec<u8>,
) -> Result<(), AllocError>
    ensures entries { OnOk result (slots.new.entries ≡ insert_entry (λ x y. by_bytes x.items y.items) slots.old.entries key (Some row)) }
    ensures kept { OnErr result (slots.new.entries ≡ slots.old.entries) }
    ensures absent { OnErr result (lookup (finds key.items) slots.old.entries ≡ None) }
    ensures ordered { IsInOrder slots.new }
{
    slots.insert(key, Some(row))?;
    Ok(())
}

/// Writes what a key's slot has, where there is one.
pub(crate) fn write_slot(
    slots: &mut BTreeMap<Vec<u8>, Option<Vec<u8>>>,
    key: &[u8],
    row: Option<Vec<u8>>,
)
    ensures entries { slots.new.entries ≡ set_value (finds key.now) slots.old.entries row }
    ensures ordered { IsInOrder slots.new }
{
    if let Some(slot) = slots.get_mut(key) {
        *slot = row;
    }
}

/// Whether a key has room and no row.
pub(crate) fn is_blank(slots: &BTreeMap<Vec<u8>, Option<Vec<u8>>>, key: &[u8]) -> bool
    ensures { result ≡ is_blank (lookup (finds key.now) slots.now.entries) }
{
    match slots.get(key) {
        Some(slot) => slot.is_none(),
        None => false,
    }
}

/// Takes a key's slot out.
pub(crate) fn drop_slot(slots: &mut BTreeMap<Vec<u8>, Option<Vec<u8>>>, key: &[u8])
    ensures entries { slots.new.entries ≡ remove_entry (finds key.now) slots.old.entries }
    ensures gone { lookup (finds key.now) slots.new.entries ≡ None }
    ensures ordered { IsInOrder slots.new }
{
    slots.remove(key);
}
