//! Serving a stream of events.

ghost use Rattle.std.specs.Prelude.{IfSome};
ghost use Rattle.counted_streams.specs.Counts.{counts, sink_of, source_of};
ghost use Rattle.drda_node.specs.Asking.{IsJournaled};
ghost use Rattle.drda_node.specs.Calls.{HasHistory};
ghost use Rattle.drda_node.specs.Register.{core_in, machine};
ghost use Rattle.drda_node.specs.Serving.{TellsFaults, Runs};
ghost use Rattle.drda_node.specs.Stations.{RunsAlong, first_station};

use crate::answering::answer;
use crate::event::{MAX_DATA_BYTES, holds_record};
use crate::gathering::{finish, pass_on};
use crate::node::Node;
use crate::reading::{Incoming, read_event};
use counted_streams::{Reader, Ready, Writer};
use drda_disk::Disk;
use std::alloc::{AllocError, Global};
use std::io::Write;

/// So many events are answered at most.
const MOST_EVENTS: u64 = 1 << 63;

/// How a run ended.
#[derive(Clone, Copy, Debug, PartialEq, Eq)]
pub enum RunEnd {
    /// All events were answered.
    Ended,
    /// What came is no event.
    BadEvent,
    /// Reading failed, or 2^63 reads were not enough.
    ReadFault,
    /// Writing failed.
    WriteFault,
    /// Memory was refused.
    NoMemory,
}

/// Reads events, does each, and writes the records that answer it, and nothing else. The answers to
/// records that came together are written together: where the next record is not ready, those before it
/// are answered first, so that whoever waits for an answer has it.
///
/// What is written is what the machine answers: on Ended to exactly the events of the input; on BadEvent to
/// exactly the events before what is no event; on ReadFault and NoMemory to some events at its beginning; on
/// WriteFault a prefix of such answers. Where memory was refused one more event may have begun, which is not
/// answered.
///
/// A run is a chain of stations, one behind each event: what an event left on the disk is journaled before its answer
/// is written. So a crash at any moment leaves a disk that opens to the tables and the units in doubt after all
/// records of the events that were answered until then, and perhaps of some more; a crash behind the run, after all
/// that was made, or with it all that was begun in the call in which the device failed. A checkpoint is answered by what
/// became of it on the disk. The calls that the machine asked of its core in the run, which the core has noted with their
/// answers, are a history: the law of serial order speaks of them.
pub fn run<D: Disk, R: Ready, W: Write>(
    alloc: Global,
    node: &mut Node<D>,
    reader: &mut Reader<R>,
    writer: &mut Writer<W>,
) -> RunEnd
    ensures runs { IfSome (R.remaining (source_of reader.old)) (λ input.
        Runs (machine node.old) input (W.contents (sink_of writer.old)) result (W.contents (sink_of writer.new)) (machine node.new)) }
    ensures stations { IfSome (R.remaining (source_of reader.old)) (λ input.
        RunsAlong D.is_modelled D.life (first_station (machine node.old) (core_in node.old)) input (W.contents (sink_of writer.old)) (W.contents (sink_of writer.new)) (core_in node.new)) }
    ensures history { HasHistory (machine node.old).core (machine node.new).core }
    ensures journaled { IsJournaled D.is_modelled D.life (core_in node.old) (core_in node.new) }
    ensures cause { TellsFaults result (counts reader.old writer.old) (counts reader.new writer.new) }
{
    recovery::laws::calls_go_on::<D>();
    node.core.is_durable();
    let Ok(mut buffer) = room_for_bytes(alloc) else {
        return RunEnd::NoMemory;
    };
    let mut text = Vec::new(alloc);
    let mut gathered = Vec::new(alloc);
    'events: for _answered in 0..MOST_EVENTS {
        match read_event(reader, &mut buffer) {
            Incoming::Event(head) => {
                let Ok(()) = answer(node, head, &buffer, &mut text) else {
                    return finish(writer, &gathered, RunEnd::NoMemory);
                };
                let waits = !holds_record(reader.ready());
                let Ok(()) = pass_on(writer, &mut gathered, &text, waits) else {
                    return RunEnd::WriteFault;
                };
            }
            Incoming::Ended => return finish(writer, &gathered, RunEnd::Ended),
            Incoming::Bad => return finish(writer, &gathered, RunEnd::BadEvent),
            Incoming::Fault => return finish(writer, &gathered, RunEnd::ReadFault),
        }
    }
    finish(writer, &gathered, RunEnd::ReadFault)
}

ghost use Rattle.std.specs.Prelude.{◌≡◌, IfOk, vec_len, length};

/// Room for the bytes of one record.
fn room_for_bytes(alloc: Global) -> Result<Vec<u8>, AllocError>
    ensures { IfOk result (λ v. length v.items ≡ 65536) }
{
    vec![in alloc; 0u8; MAX_DATA_BYTES]
}
