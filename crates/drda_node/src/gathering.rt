//! Answers that are gathered while nobody waits for them.

ghost use Rattle.std.specs.Prelude.{◌≡◌, ◌++◌, [], if◌then◌else◌, OnErr, OnOk};
ghost use Rattle.std.specs.Io.KnownBytes.{Appends};
ghost use Rattle.counted_streams.specs.Counts.{sink_of, write_faults_of};
ghost use Rattle.counted_streams.specs.Faults.{CountsFault};
ghost use Rattle.drda_node.specs.Gathering.{CountsEnd, Ends, PassesOn, WritesFront};

use crate::serving::RunEnd;
use counted_streams::{StreamFault, Writer};
use std::io::Write;

/// The most bytes of answers that are gathered.
pub(crate) const MAX_GATHERED_BYTES: usize = 65536;

/// Writes an answer behind those that were gathered; or gathers it too, where that is few bytes together and
/// nobody waits for it.
#[inline(always)]
pub(crate) fn pass_on<W: Write>(
    writer: &mut Writer<W>,
    gathered: &mut Vec<u8>,
    answer: &[u8],
    waits: bool,
) -> Result<(), StreamFault>
    ensures ok { OnOk result (PassesOn (W.contents (sink_of writer.old)) gathered.old.items answer.now (W.contents (sink_of writer.new)) gathered.new.items) }
    ensures err { OnErr result (WritesFront (W.contents (sink_of writer.old)) (W.contents (sink_of writer.new)) gathered.old.items answer.now) }
    ensures faults { CountsFault result (write_faults_of writer.old) (write_faults_of writer.new) }
{
    if waits && gathered.is_empty() || !gathers(gathered, answer) {
        return write_both(writer, gathered, answer);
    }
    if waits {
        return write_both(writer, gathered, &[]);
    }
    Ok(())
}

// Writes what was gathered and an answer behind it.
#[inline(never)]
fn write_both<W: Write>(
    writer: &mut Writer<W>,
    gathered: &mut Vec<u8>,
    answer: &[u8],
) -> Result<(), StreamFault>
    ensures ok { OnOk result (Appends (W.contents (sink_of writer.old)) (W.contents (sink_of writer.new)) (gathered.old.items ++ answer.now)) }
    ensures none { OnOk result (gathered.new.items ≡ []) }
    ensures err { OnErr result (WritesFront (W.contents (sink_of writer.old)) (W.contents (sink_of writer.new)) gathered.old.items answer.now) }
    ensures faults { CountsFault result (write_faults_of writer.old) (write_faults_of writer.new) }
{
    let Ok(()) = writer.write_whole(gathered) else {
        return Err(StreamFault);
    };
    gathered.clear();
    let Ok(()) = writer.write_whole(answer) else {
        return Err(StreamFault);
    };
    Ok(())
}

// Gathers an answer, where they are few bytes together, and there is memory.
#[inline(always)]
fn gathers(gathered: &mut Vec<u8>, answer: &[u8]) -> bool
    ensures { gathered.new.items ≡ (if result then gathered.old.items ++ answer.now else gathered.old.items) }
{
    answer.len() <= MAX_GATHERED_BYTES
        && gathered.len() <= MAX_GATHERED_BYTES - answer.len()
        && gathered.extend_from_slice(answer).is_ok()
}

/// Writes what was gathered, and says how the run ends then.
pub(crate) fn finish<W: Write>(writer: &mut Writer<W>, gathered: &[u8], end: RunEnd) -> RunEnd
    ensures ends { Ends (W.contents (sink_of writer.old)) gathered.now end result (W.contents (sink_of writer.new)) }
    ensures faults { CountsEnd end result (write_faults_of writer.old) (write_faults_of writer.new) }
{
    match writer.write_whole(gathered) {
        Ok(()) => end,
        Err(_) => RunEnd::WriteFault,
    }
}
