//! One conversation, in its thread.

ghost use Rattle.std.specs.Prelude.{◌≡◌};
ghost use Rattle.shared_node.specs.Locked.{Retires, UnderLock};
ghost use Rattle.drda_server.specs.Threads.{Attends};

use crate::attended::Attended;
use conversation::Settings;
use counted_streams::{Reader, Writer};
use drda_disk::Disk;
use drda_guests::{
    Doors, Failure, Fullness, Guest, Log, Longest, Notice, Outcome, TellingGate, unseen,
};
use shared_node::{Desk, Gate, Origin, Pass, Shared};
use std::alloc::Global;
use std::io::{Read, Write};
use std::net::{OpenStream, SocketAddr};
use std::snapshot::Snapshot;
use std::sync::Wait;
use std::time::Clock;
use stream_service::Served;

/// What all threads share.
#[derive(Clone, Copy)]
pub(crate) struct Hall<'a, D: Disk, B: Origin<D>, R: Wait, G: Gate, L: Log, K> {
    pub(crate) rt: &'a R,
    pub(crate) alloc: Global,
    pub(crate) shared: &'a Shared<D, B>,
    pub(crate) settings: &'a Settings,
    pub(crate) gate: &'a G,
    pub(crate) log: &'a L,
    pub(crate) waits: &'a Longest,
    pub(crate) holds: &'a Longest,
    pub(crate) fullness: &'a Fullness,
    pub(crate) failure: &'a Failure,
    pub(crate) doors: &'a Doors<K>,
    /// How many bytes of rows a conversation keeps for its cursors at most.
    pub(crate) cursor_bytes: usize,
}

/// Attends to one conversation, whose stream these two are of. What it left unfinished is lost at its end, and its leave is
/// given back.
pub(crate) fn attend<
    D: Disk,
    B: Origin<D>,
    R: Wait + Clock,
    G: Gate,
    L: Log,
    I: Read + Drop,
    O: Write + OpenStream + Drop,
>(
    hall: &Hall<'_, D, B, R, G, L, O>,
    pass: Pass,
    peer: Option<SocketAddr>,
    reader: I,
    writer: O,
) -> Attended<I, O>
    ensures { Attends D.is_modelled D.life B.is I.remaining O.contents hall.now.settings.now pass reader writer result }
{
    let conversation = pass.conversation();
    let gate = TellingGate {
        rt: hall.rt,
        gate: hall.gate,
        log: hall.log,
        waits: hall.waits,
        holds: hall.holds,
        fullness: hall.fullness,
        failure: hall.failure,
        doors: hall.doors,
    };
    let place = pass.place();
    let mut guest = Guest {
        rt: hall.rt,
        log: hall.log,
        doors: hall.doors,
        place,
        conversation,
        cursor_bytes: hall.cursor_bytes,
        seen: unseen(),
    };
    let mut reader = Reader::new(reader);
    let mut writer = Writer::new(writer);
    let ended = Desk::new(hall.rt, hall.shared, &gate, pass).serve(
        hall.alloc,
        hall.settings,
        &mut reader,
        &mut writer,
        &mut guest,
    );
    hall.doors.end(hall.rt, place);
    let outcome = Outcome {
        served: ended.served,
        is_logged_in: guest.seen.is_checked,
        refused: guest.seen.refused,
        calls: ended.pass.count(),
        waited: ended.longest_wait,
        held: ended.longest_hold,
    };
    hall.log.tell(Notice::Ends {
        conversation,
        peer,
        outcome,
    });
    let (reader, writer) = (Snapshot::of(&reader), Snapshot::of(&writer));
    retire(hall, ended.served, ended.pass, reader, writer)
}

// Gives the pass of a conversation that was lost back.
fn retire<D: Disk, B: Origin<D>, R: Wait + Clock, G: Gate, L: Log, I, O>(
    hall: &Hall<'_, D, B, R, G, L, O>,
    served: Served,
    pass: Pass,
    reader: Snapshot<Reader<I>>,
    writer: Snapshot<Writer<O>>,
) -> Attended<I, O>
    ensures kept { (result.served ≡ served) × (result.pass.value ≡ pass) × (result.reader ≡ reader) × (result.writer ≡ writer) }
    ensures retired { UnderLock D.is_modelled D.life B.is (Retires pass result.is_retired) }
{
    let shown = Snapshot::of(&pass);
    let is_retired = hall.shared.retire(hall.rt, pass);
    Attended {
        served,
        is_retired,
        pass: shown,
        reader,
        writer,
    }
}
