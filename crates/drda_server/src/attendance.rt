//! What a thread promises.

use crate::attended::Attended;
use conversation::Settings;
use drda_disk::Disk;
use shared_node::{Origin, Pass};
use std::io::{Read, Write};
use std::marker::PhantomData;
use std::snapshot::Snapshot;
use std::thread::Promise;

/// What the thread of a conversation promises: the conversation of this stream is attended at this pass, by a front of
/// these settings. It takes no memory, since clauses alone read it.
#[derive(Drop)]
pub struct Attendance<D, B, I, O> {
    pub settings: Snapshot<Settings>,
    pub pass: Snapshot<Pass>,
    pub reader: Snapshot<I>,
    pub writer: Snapshot<O>,
    marker: PhantomData<(D, B)>,
}

impl<D, B, I, O> Attendance<D, B, I, O> {
    ghost use Rattle.std.specs.Prelude.{◌≡◌};

    /// The attendance of the stream that these two are of, at a pass.
    pub fn new(settings: &Settings, pass: &Pass, reader: &I, writer: &O) -> Attendance<D, B, I, O>
        ensures settings { result.settings.value ≡ settings.now }
        ensures pass { result.pass.value ≡ pass.now }
        ensures reader { result.reader.value ≡ reader.now }
        ensures writer { result.writer.value ≡ writer.now }
    {
        Attendance {
            settings: Snapshot::of(settings),
            pass: Snapshot::of(pass),
            reader: Snapshot::of(reader),
            writer: Snapshot::of(writer),
            marker: PhantomData,
        }
    }
}

impl<D: Disk, B: Origin<D>, I: Read, O: Write> Promise<Attended<I, O>> for Attendance<D, B, I, O> {
    ghost use Rattle.drda_server.specs.Threads.{Attends};

    ghost kept_by = { λ p attended. Attends D.is_modelled D.life B.is I.remaining O.contents p.settings.value p.pass.value p.reader.value p.writer.value attended };
}
