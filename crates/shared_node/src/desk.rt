//! One conversation's place at the book.

ghost use Rattle.std.specs.Prelude.{◌≡◌, IfSome};
ghost use Rattle.counted_streams.specs.Counts.{counts, sink_of, source_of};
ghost use Rattle.stream_service.specs.Serving.{TellsFaults};
ghost use Rattle.shared_node.specs.Desks.{DeskAsks};
ghost use Rattle.shared_node.specs.Served.{IsLost, IsServed};

use crate::asker::Asker;
use crate::origin::Origin;
use crate::shared::Shared;
use conversation::{Front, Settings};
use core_history::Pass;
use counted_streams::{Reader, Writer};
use drda_disk::Disk;
use std::alloc::Global;
use std::io::{Read, Write};
use std::sync::Wait;
use std::time::Clock;
use stream_service::{Host, Served, serve};
use turns::Gate;

/// One conversation's place at the book, for the calls of a pass. Nobody can ask there but the conversation that is served: call
/// by call under the lock. Commits that wait, and phases of two-phase commit, are made together by the first of them, but for
/// commits behind no statement that may have changed rows, since these make no device call. Behind a loss a checkpoint is
/// considered.
#[derive(Drop)]
pub struct Desk<'a, D: Disk, B: Origin<D>, R: Wait + Clock, G: Gate> {
    rt: &'a R,
    shared: &'a Shared<D, B>,
    gate: &'a G,
    pass: Pass,
}

/// A conversation that has ended.
#[derive(Drop)]
pub struct Ended {
    /// Its pass, which shows the calls that were listed.
    pub pass: Pass,
    /// How the service of its stream ended.
    pub served: Served,
    /// For how many microseconds one of its calls waited for the lock at most.
    pub longest_wait: u64,
    /// For how many microseconds one of its calls held the lock at most.
    pub longest_hold: u64,
}

impl<'a, D: Disk, B: Origin<D>, R: Wait + Clock, G: Gate> Desk<'a, D, B, R, G> {
    /// A desk for the calls of a pass.
    pub fn new(rt: &'a R, shared: &'a Shared<D, B>, gate: &'a G, pass: Pass) -> Desk<'a, D, B, R, G>
        ensures { result.pass ≡ pass }
    {
        Desk {
            rt,
            shared,
            gate,
            pass,
        }
    }

    /// Serves a conversation over a stream, from its first byte to its loss: what it is answered is what its pass shows as
    /// listed, and its loss is the last call. Where memory is refused before the first byte, nothing is heard, asked or
    /// written. A failed read is told only where one has failed, or 2^63 were not enough, and a failed write only where one has failed.
    /// `host` looks on; nothing that is said here depends on it.
    pub fn serve<I: Read, O: Write, H: Host>(
        self,
        alloc: Global,
        settings: &Settings,
        reader: &mut Reader<I>,
        writer: &mut Writer<O>,
        host: &mut H,
    ) -> Ended
        ensures served { IfSome (I.remaining (source_of reader.old)) (λ input. IsServed (DeskAsks D.is_modelled D.life B.is) settings.now self.entry.pass input (O.contents (sink_of writer.old)) result.served (O.contents (sink_of writer.new)) result.pass) }
        ensures lost { IsLost (DeskAsks D.is_modelled D.life B.is) self.entry.pass result.served result.pass }
        ensures cause { TellsFaults result.served (counts reader.old writer.old) (counts reader.new writer.new) }
    {
        let mut asker = Asker::new(
            self.rt,
            self.shared,
            self.gate,
            self.pass,
            host.cursor_bytes(),
        );
        let served = serve_asker(alloc, settings, &mut asker, reader, writer, host);
        let (longest_wait, longest_hold) = asker.longest();
        Ended {
            pass: asker.into_pass(),
            served,
            longest_wait,
            longest_hold,
        }
    }
}

// The same, for who asks.
fn serve_asker<'a, D: Disk, B: Origin<D>, R: Wait + Clock, G: Gate, I: Read, O: Write, H: Host>(
    alloc: Global,
    settings: &Settings,
    asker: &mut Asker<'a, D, B, R, G>,
    reader: &mut Reader<I>,
    writer: &mut Writer<O>,
    host: &mut H,
) -> Served
    ensures served { IfSome (I.remaining (source_of reader.old)) (λ input. IsServed (DeskAsks D.is_modelled D.life B.is) settings.now asker.old input (O.contents (sink_of writer.old)) result (O.contents (sink_of writer.new)) asker.new) }
    ensures lost { IsLost (DeskAsks D.is_modelled D.life B.is) asker.old result asker.new }
    ensures cause { TellsFaults result (counts reader.old writer.old) (counts reader.new writer.new) }
{
    dss_frames::laws::stays_read();
    match Front::new(alloc, settings) {
        Ok(mut front) => serve(alloc, &mut front, reader, writer, asker, host),
        Err(_) => Served::NoMemory,
    }
}
