//! The record of a memory disk's writes since the last sync, and going through it again.
ghost use Rattle.std.specs.Prelude.{◌≡◌, ◌+◌, ◌≤◌, [], ◌∷◌, ◌++◌, length, take, drop, OnOk, OnErr, IsOk, Vec, vec_len, vec_capacity};
ghost use Rattle.drda_disk.specs.Disk.{overlaid, Torn};
ghost use Rattle.drda_disk.specs.Replay.{read_after, written_over, Reaches, wrote, synced};
ghost use Rattle.drda_disk.specs.Recorded.{steps_of, recorded_len};

use crate::history::History;
use std::alloc::AllocError;

/// A write since the last sync. The bytes of all of them lie one behind another in a vector of their
/// own.
#[derive(Clone, Copy)]
pub(crate) struct Write {
    pub(crate) at: usize,
    pub(crate) len: usize,
}

/// Records a write for which there is room.
fn push_write(writes: &mut Vec<Write>, write: Write)
    requires { vec_len writes.old + 1 ≤ vec_capacity writes.old }
    ensures items { writes.new.items ≡ writes.old.items ++ write ∷ [] }
    ensures len { vec_len writes.new ≡ vec_len writes.old + 1 }
    ensures capacity { vec_capacity writes.old ≤ vec_capacity writes.new }
{
    let _ = writes.push(write);
}

pub(crate) fn record_write(
    writes: &mut Vec<Write>,
    written: &mut Vec<u8>,
    at: usize,
    bytes: &[u8],
) -> Result<(), AllocError>
    requires { recorded_len writes.old.items ≡ length written.old.items }
    ensures ok { OnOk result (steps_of writes.new.items written.new.items ≡ wrote at bytes.now ∷ steps_of writes.old.items written.old.items) }
    ensures err { OnErr result ((writes.new.items ≡ writes.old.items) × (written.new.items ≡ written.old.items)) }
    ensures whole { recorded_len writes.new.items ≡ length written.new.items }
    ensures succeeds { vec_len writes.old + 1 ≤ vec_capacity writes.old → vec_len written.old + length bytes.now ≤ vec_capacity written.old → IsOk result }
    ensures writes { (vec_len writes.new ≤ vec_len writes.old + 1) × (vec_capacity writes.old ≤ vec_capacity writes.new) }
    ensures written { (vec_len written.new ≤ vec_len written.old + length bytes.now) × (vec_capacity written.old ≤ vec_capacity written.new) }
{
    writes.reserve(1)?;
    written.extend_from_slice(bytes)?;
    let len = bytes.len();
    push_write(writes, Write { at, len });
    Ok(())
}

pub(crate) fn overwrite(file: &mut Vec<u8>, at: usize, bytes: &[u8])
    requires { at + length bytes.now ≤ length file.old.items }
    ensures { file.new.items ≡ overlaid file.old.items at bytes.now }
{
    file[at..at + bytes.len()].copy_from_slice(bytes);
}

/// Writes what lies in the file.
fn redo(file: &mut Vec<u8>, at: usize, bytes: &[u8])
    ensures { file.new.items ≡ written_over file.old.items at bytes.now }
{
    if at <= file.len() && bytes.len() <= file.len() - at {
        overwrite(file, at, bytes);
    }
}

/// The first bytes, up to `len`, and those behind them.
fn cut(bytes: &[u8], len: usize) -> (&[u8], &[u8])
    ensures first { result.0.now ≡ take len bytes.now }
    ensures later { result.1.now ≡ drop len bytes.now }
{
    if len <= bytes.len() {
        bytes.split_at(len)
    } else {
        (bytes, &[])
    }
}

/// Makes the recorded writes again.
pub(crate) fn redo_all(writes: &[Write], written: &[u8], file: &mut Vec<u8>)
    ensures { file.new.items ≡ read_after file.old.items (steps_of writes.now written.now) }
{
    let mut rest = written;
    for write in writes {
        let (bytes, later) = cut(rest, write.len);
        rest = later;
        redo(file, write.at, bytes);
    }
}

/// A number that looks like chance, the same for the same pair: `splitmix64` of their sum.
fn mixed(pick: u64, place: u64) -> u64 {
    let mut word = pick.wrapping_add(place.wrapping_add(1).wrapping_mul(0x9E37_79B9_7F4A_7C15));
    word = (word ^ (word >> 30)).wrapping_mul(0xBF58_476D_1CE4_E5B9);
    word = (word ^ (word >> 27)).wrapping_mul(0x94D0_49BB_1331_11EB);
    word ^ (word >> 31)
}

/// What a crash leaves of a byte that is being written: the old one, the new one, or any other.
fn torn_byte(old: u8, new: u8, may_be_other: bool, chance: u64) -> u8 {
    match chance % 4 {
        0 => old,
        1 if may_be_other => ((chance >> 8) % 256) as u8,
        1 | 2 => new,
        _ if may_be_other => ((chance >> 16) % 256) as u8,
        _ => old,
    }
}

/// Leaves a write as a crash may: none of it, all of it, each byte old or new, or each byte any.
/// Which of these, and which bytes, is by `chance`, another number for each write.
fn tear(file: &mut Vec<u8>, at: usize, bytes: &[u8], chance: u64)
    ensures { Torn at (length bytes.now) file.old.items file.new.items }
{
    if at > file.len() || bytes.len() > file.len() - at || chance % 4 == 0 {
        return;
    }
    if chance % 4 == 1 {
        redo(file, at, bytes);
        return;
    }
    let may_be_other = chance % 4 == 2;
    for (i, byte) in bytes.iter().enumerate() {
        let old = file[at + i];
        file[at + i] = torn_byte(old, *byte, may_be_other, mixed(chance, i as u64));
    }
}

/// Leaves the write at this place in the record as a crash may: none of it where `pick` is 0, and all
/// where it is 1.
fn leave(file: &mut Vec<u8>, at: usize, bytes: &[u8], pick: u64, place: u64)
    ensures torn { Torn at (length bytes.now) file.old.items file.new.items }
    ensures none { pick ≡ 0 → file.new.items ≡ file.old.items }
    ensures all { pick ≡ 1 → file.new.items ≡ written_over file.old.items at bytes.now }
{
    match pick {
        0 => {}
        1 => redo(file, at, bytes),
        _ => tear(file, at, bytes, mixed(pick, place)),
    }
}

/// Leaves the recorded writes as a crash may.
pub(crate) fn leave_all(writes: &[Write], written: &[u8], file: &mut Vec<u8>, pick: u64)
    ensures reaches { Reaches file.old.items (steps_of writes.now written.now) file.new.items }
    ensures none { pick ≡ 0 → file.new.items ≡ file.old.items }
    ensures all { pick ≡ 1 → file.new.items ≡ read_after file.old.items (steps_of writes.now written.now) }
{
    let mut rest = written;
    let mut place = 0u64;
    for write in writes {
        let (bytes, later) = cut(rest, write.len);
        rest = later;
        leave(file, write.at, bytes, pick, place);
        place = place.wrapping_add(1);
    }
}

/// The history of a disk with these writes over bytes that were synced.
pub(crate) fn history_of(durable: &[u8], writes: &[Write], written: &[u8]) -> History
    ensures { result.steps.value ≡ steps_of writes.now written.now ++ synced ∷ (wrote 0 durable.now ∷ []) }
{
    let mut history = History::of(durable);
    let mut rest = written;
    for write in writes {
        let (bytes, later) = cut(rest, write.len);
        rest = later;
        history.note_write(write.at, bytes);
    }
    history
}
