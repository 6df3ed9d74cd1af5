//! A thread for each conversation.

ghost use denote.Param.Send.{IsSend, IsSync};
ghost use Rattle.std.specs.Prelude.{◌≡◌, ◌<◌, IfOk, IfSome, None};
ghost use Rattle.shared_node.specs.Locked.{GivesLeave, UnderLock};
ghost use Rattle.drda_server.specs.Threads.{IsReceived, IsTurnedAway, ServesAll};

use crate::arrivals::Streams;
use crate::attendance::Attendance;
use crate::attending::{Hall, attend};
use crate::handles::{join_all, join_at, no_threads, put_at};
use conversation::Settings;
use core_history::PLACES;
use drda_disk::Disk;
use drda_guests::{Doors, Failure, Fullness, Log, Longest, Notice, tell_turn};
use shared_node::{Gate, Origin, Pass, Shared};
use std::alloc::{AllocError, Global};
use std::net::{OpenStream, SocketAddr};
use std::sync::Wait;
use std::thread::{self, Threads, sleep};
use std::time::{Clock, Duration};

/// For how many moments a place is waited for that a conversation has to give back.
const PATIENCE: u64 = 150;

/// How long such a moment is, in milliseconds.
const MOMENT: u64 = 10;

/// For how many milliseconds what is under way may still be answered once the device has failed.
const GENTLE: u64 = 400;

// Leave for a conversation of a stream of this peer, where there is any. The stream can be ended by the handle.
fn welcome<D: Disk, B: Origin<D>, R: Wait + Clock, G: Gate, L: Log, K: OpenStream + Drop>(
    hall: &Hall<'_, D, B, R, G, L, K>,
    peer: Option<SocketAddr>,
    handle: Option<K>,
) -> Option<Pass>
    ensures some { IfSome result (λ pass. pass.place < 64) }
    ensures given { IfSome result (λ pass. UnderLock D.is_modelled D.life B.is (GivesLeave pass)) }
    ensures none { result ≡ None → IsTurnedAway D.is_modelled D.life B.is }
{
    let Some(pass) = admit(hall) else {
        hall.log.tell(Notice::TurnedAway { peer });
        return None;
    };
    let conversation = pass.conversation();
    hall.doors
        .begin(hall.rt, pass.place(), conversation, handle);
    hall.log.tell(Notice::Begins { conversation, peer });
    Some(pass)
}

// Leave for one conversation more; where there is none, perhaps in the place of another one.
fn admit<D: Disk, B: Origin<D>, R: Wait + Clock, G: Gate, L: Log, K: OpenStream + Drop>(
    hall: &Hall<'_, D, B, R, G, L, K>,
) -> Option<Pass>
    ensures some { IfSome result (λ pass. pass.place < 64) }
    ensures given { IfSome result (λ pass. UnderLock D.is_modelled D.life B.is (GivesLeave pass)) }
    ensures none { result ≡ None → IsTurnedAway D.is_modelled D.life B.is }
{
    match hall.shared.admit(hall.rt) {
        Some(pass) => Some(pass),
        None => admit_for_another(hall),
    }
}

// Ends that conversation which came first of those that have not opened the database for a second, and waits for its leave.
fn admit_for_another<D: Disk, B: Origin<D>, R: Wait + Clock, G: Gate, L: Log, K: OpenStream + Drop>(
    hall: &Hall<'_, D, B, R, G, L, K>,
) -> Option<Pass>
    ensures some { IfSome result (λ pass. pass.place < 64) }
    ensures given { IfSome result (λ pass. UnderLock D.is_modelled D.life B.is (GivesLeave pass)) }
{
    let conversation = hall.doors.oust(hall.rt)?;
    hall.log.tell(Notice::Ousted { conversation });
    for _ in 0..PATIENCE {
        sleep(hall.rt, Duration::from_millis(MOMENT));
        if let Some(pass) = hall.shared.admit(hall.rt) {
            return Some(pass);
        }
    }
    None
}

/// What conversations are held to.
#[derive(Clone, Copy)]
pub struct Rules<'a> {
    /// Within how many seconds of its coming a conversation must have opened the database; else its stream is ended.
    pub login: u32,
    /// How many seconds a read or a write of a stream may wait once the database is open, where that is limited.
    pub idle: Option<u32>,
    /// So many bytes of rows a conversation keeps for its open cursors at most.
    pub cursor_bytes: usize,
    /// Whether serving ends once the device has failed: then each stream is ended once what is under way was answered.
    pub failure: &'a Failure,
}

/// Serves the conversation of each stream in a thread of its own, until no more streams come; all have ended
/// when it returns. A stream that comes while 64 are served takes the place of the first one that has not opened the database
/// for a second, or is closed at once; where no thread can be made, the
/// stream is served here, before the next is waited for. `gate` says when a call may be made, `log` is told what
/// becomes of the streams. Refused only before the first stream, where there is no memory for 64 threads' names.
pub fn serve_streams<D, B, R, G, L, S>(
    rt: &R,
    alloc: Global,
    shared: &Shared<D, B>,
    settings: &Settings,
    gate: &G,
    log: &L,
    rules: Rules<'_>,
    streams: &mut S,
) -> Result<(), AllocError>
where
    D: Disk + Send + Drop,
    B: Origin<D> + Send,
    R: Threads + Wait + Clock + Sync,
    G: Gate + Sync,
    L: Log + Sync,
    S: Streams,
    S::Reader: Send,
    S::Writer: Send,
    ensures { IfOk result (λ _. ServesAll (IsTurnedAway D.is_modelled D.life B.is) (IsReceived D.is_modelled D.life B.is S.Reader.remaining S.Writer.contents settings.now) S.gives streams.old) }
{
    let (waits, holds, fullness) = (Longest::new(), Longest::new(), Fullness::new());
    let doors = Doors::new(alloc, PLACES, rules.login, rules.idle)?;
    let hall = Hall {
        rt,
        alloc,
        shared,
        settings,
        gate,
        log,
        waits: &waits,
        holds: &holds,
        fullness: &fullness,
        failure: rules.failure,
        doors: &doors,
        cursor_bytes: rules.cursor_bytes,
    };
    serve_in(rt, &hall, streams)
}

// A checkpoint is considered, before anything is served.
fn begin<D: Disk, B: Origin<D>, R: Wait + Clock, G: Gate, L: Log, K: OpenStream + Drop>(
    hall: &Hall<'_, D, B, R, G, L, K>,
) {
    let turn = hall.shared.consider_checkpoint(hall.rt);
    tell_turn(hall.log, hall.fullness, &turn);
    if turn.has_failed {
        hall.failure.note();
    }
}

// No stream comes any more. Where that is so since the device has failed, what is under way is given a moment, and each stream is ended.
fn end<D: Disk, B: Origin<D>, R: Wait + Clock, G: Gate, L: Log, K: OpenStream + Drop>(
    hall: &Hall<'_, D, B, R, G, L, K>,
) {
    if hall.failure.ends_serving() {
        hall.log.tell(Notice::EndsFailed);
        sleep(hall.rt, Duration::from_millis(GENTLE));
        hall.doors.end_all(hall.rt, true);
    }
}

// The same in a hall.
fn serve_in<D, B, R, G, L, S>(
    rt: &R,
    hall: &Hall<'_, D, B, R, G, L, S::Writer>,
    streams: &mut S,
) -> Result<(), AllocError>
where
    D: Disk + Send + Drop,
    B: Origin<D> + Send,
    R: Threads + Wait + Clock + Sync,
    G: Gate + Sync,
    L: Log + Sync,
    S: Streams,
    S::Reader: Send,
    S::Writer: Send,
    ensures { IfOk result (λ _. ServesAll (IsTurnedAway D.is_modelled D.life B.is) (IsReceived D.is_modelled D.life B.is S.Reader.remaining S.Writer.contents hall.now.settings.now) S.gives streams.old) }
{
    thread::scope(
        thread::scope_env(),
        rt,
        move |scope| -> Result<(), AllocError>
            requires { IsSync R.row × IsSync G.row × IsSync L.row × IsSend D.row × IsSend S.Reader.row × IsSend S.Writer.row }
            ensures { IfOk result (λ _. ServesAll (IsTurnedAway D.is_modelled D.life B.is) (IsReceived D.is_modelled D.life B.is S.Reader.remaining S.Writer.contents hall.entry.now.settings.now) S.gives streams.entry.now) }
        {
            let mut threads = no_threads(hall.alloc)?;
            begin(hall);
            'serving: for _ in rt.forever() {
                let Some((reader, writer)) = streams.next() else {
                    break 'serving;
                };
                let peer = streams.peer(&reader);
                let handle = streams.handle(&reader);
                let Some(pass) = welcome(hall, peer, handle) else {
                    continue 'serving;
                };
                let place = pass.place();
                let conversation = pass.conversation();
                // Whoever had this place has given its leave back, so its thread is at its end.
                join_at(rt, &mut threads, place);
                let attendance: Attendance<D, B, S::Reader, S::Writer> = Attendance::new(
                    hall.settings,
                    &pass,
                    &reader,
                    &writer,
                );
                match scope.spawn_with(
                    attendance,
                    move || attend(hall, pass, peer, reader, writer),
                ) {
                    Ok(thread) => put_at(&mut threads, place, thread),
                    Err(refused) => {
                        hall.log.tell(Notice::NoThread { conversation });
                        (refused.value)();
                    }
                }
            }
            end(hall);
            join_all(rt, &mut threads);
            Ok(())
        },
    )
}
