//! A row of lists by their places; past its end each list is empty.

ghost use Rattle.std.specs.Prelude.{◌≡◌, ◌≢◌, ◌≤◌, ◌<◌, ◌++◌, ◌^◌, ℕ, [], ◌∷◌, IfErr, IfNone, OnErr, OnOk, length};
ghost use Rattle.std.specs.Option.{option_to_list};
ghost use Rattle.std.specs.List.{remove};
ghost use Rattle.std.specs.Vec.{vec_len};
ghost use Rattle.unit_locks.specs.Lists.{list_at};

use std::alloc::{AllocError, Global};

/// The list at a place.
pub(crate) fn list<T>(lists: &[Vec<T>], at: usize) -> &[T]
    ensures { result.now ≡ list_at lists.now at }
{
    match lists.get(at) {
        Some(list) => list.as_slice(),
        None => &[],
    }
}

/// Makes the row at least so long. The lists stay.
pub(crate) fn grow<T: Drop>(
    alloc: Global,
    lists: &mut Vec<Vec<T>>,
    count: usize,
) -> Result<(), AllocError>
    ensures long { OnOk result (count ≤ vec_len lists.new) }
    ensures same { (k : ℕ) → list_at lists.new.items k ≡ list_at lists.old.items k }
{
    while lists.len() < count {
        lists.push(Vec::new(alloc))?;
    }
    Ok(())
}

/// Adds an item to the list at a place; out of memory, the item is given back and each list stays.
pub(crate) fn push<T: Drop>(
    alloc: Global,
    lists: &mut Vec<Vec<T>>,
    at: usize,
    item: T,
) -> Result<(), T>
    requires { at < 2 ^ 32 }
    ensures ok { OnOk result (list_at lists.new.items at ≡ list_at lists.old.items at ++ item ∷ []) }
    ensures err { OnErr result (list_at lists.new.items at ≡ list_at lists.old.items at) }
    ensures back { IfErr result (λ given. given ≡ item) }
    ensures others { (k : ℕ) → k ≢ at → list_at lists.new.items k ≡ list_at lists.old.items k }
{
    let Ok(()) = grow(alloc, lists, at + 1) else {
        return Err(item);
    };
    let list = &mut lists[at];
    match list.push(item) {
        Ok(()) => Ok(()),
        Err(failed) => Err(failed.value),
    }
}

/// Takes the last item of the list at a place.
pub(crate) fn pop<T>(lists: &mut Vec<Vec<T>>, at: usize) -> Option<T>
    ensures items { list_at lists.old.items at ≡ list_at lists.new.items at ++ option_to_list result }
    ensures empty { IfNone result (list_at lists.old.items at ≡ []) }
    ensures others { (k : ℕ) → k ≢ at → list_at lists.new.items k ≡ list_at lists.old.items k }
{
    if at >= lists.len() {
        return None;
    }
    let list = &mut lists[at];
    match list.pop() {
        Some(item) => Some(item),
        None => None,
    }
}

/// Takes an item out of the list at a place.
pub(crate) fn remove<T: Drop>(lists: &mut Vec<Vec<T>>, at: usize, i: usize)
    requires { i < length (list_at lists.old.items at) }
    ensures items { list_at lists.new.items at ≡ remove (list_at lists.old.items at) i }
    ensures others { (k : ℕ) → k ≢ at → list_at lists.new.items k ≡ list_at lists.old.items k }
{
    let list = &mut lists[at];
    list.remove(i);
}
