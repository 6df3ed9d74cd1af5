//! Memory that is overwritten before it is given back.

ghost use Rattle.std.specs.Prelude.{◌≡◌, ◌++◌, if◌then◌else◌, OnErr, OnOk, replicate, vec_capacity};

use std::alloc::AllocError;
use std::mem;

/// Fills all of a list's memory with zeros, also what lies behind its last byte.
#[inline(never)]
pub(crate) fn overwrite(bytes: &mut Vec<u8>)
    ensures { bytes.new.items ≡ replicate (vec_capacity bytes.old) 0 }
{
    bytes.clear();
    let _ = bytes.resize(bytes.capacity(), 0);
}

/// Appends bytes, or none where memory is refused. Where they want more memory, what is given back for it
/// is overwritten first.
#[inline(always)]
pub(crate) fn append(bytes: &mut Vec<u8>, more: &[u8]) -> Result<(), AllocError>
    ensures ok { OnOk result (bytes.new.items ≡ bytes.old.items ++ more.now) }
    ensures err { OnErr result (bytes.new.items ≡ bytes.old.items) }
{
    if bytes.capacity() - bytes.len() < more.len() {
        move_to_larger(bytes, more.len())?;
    }
    bytes.extend_from_slice(more)
}

// Moves to memory of at least twice the size, with room for so many bytes more.
#[inline(never)]
fn move_to_larger(bytes: &mut Vec<u8>, more: usize) -> Result<(), AllocError>
    ensures { bytes.new.items ≡ bytes.old.items }
{
    let size = bytes.len().saturating_add(more).max(2 * bytes.capacity());
    let mut larger = Vec::with_capacity(*bytes.allocator(), size)?;
    larger.extend_from_slice(bytes)?;
    mem::swap(bytes, &mut larger);
    overwrite(&mut larger);
    Ok(())
}
