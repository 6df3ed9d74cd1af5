//! The core over a disk, and its calls.

ghost use Rattle.std.specs.Prelude.{◌≡◌, IfOk, IsTrue, false, string_bytes};
ghost use Rattle.core_calls.specs.Answer.{answer_of};
ghost use Rattle.core_calls.specs.Call.{call_of};
ghost use Rattle.unit_records.specs.Together.{is_ready};
ghost use Rattle.xa_manager.specs.Branch.{in_doubt_xids};
ghost use Rattle.rdb_core.specs.InDoubt.{branches_left, in_doubt_branches, xids_left};
ghost use Rattle.recovery.specs.Journaled.{IsDurable, Journaled, shown_on};
ghost use Rattle.durable_core.specs.Copying.{Copies};
ghost use Rattle.durable_core.specs.Steps.{Loses, Steps};

use crate::plain_error::{PlainError, told};
use core_calls::{Answer, CoreCall};
use drda_disk::Disk;
use journal_recorder::DiskRecorder;
use rdb_core::{Core, InDoubt, PlainState};
use std::marker::Model;
use unit_records::GroupCall;

/// The committed tables, the units of work and the XA branches of a store on a disk. The rows of the tables
/// are on pages of the disk, with the changes since the last checkpoint in memory; what a statement asks for is
/// read ahead of it. Each call is a step of the state; what a step commits, prepares or decides is a record in
/// the store's journal first.
/// A crash at any moment of a call, inside of a device call too, leaves a disk that opens to the tables
/// and the units in doubt from before the call or from after it; once a call has answered, to those
/// after it.
///
/// Once the device has failed it answers `Closed` and makes no device call: whether the last record is
/// there shows when the store is opened again.
#[derive(Drop)]
pub struct DurableCore<D: Disk> {
    pub(crate) name: String,
    pub(crate) core: Core<DiskRecorder<D>>,
}

impl<D: Disk> Model for DurableCore<D> {
    ghost use Rattle.std.specs.Prelude.{string_bytes};
    ghost use Rattle.recovery.specs.Journaled.{OnDisk};

    ghost Value = { OnDisk D };

    ghost use Rattle.journal_recorder.specs.Reading.{HasPages};
    ghost use Rattle.rdb_core.specs.State.{pages_of, recorder_of, state_of};
    ghost use Rattle.durable_core.specs.Recorded.{IsRecorded, core_on};

    ghost view = { λ c. core_on (string_bytes c.name) (state_of c.core) (recorder_of c.core) };

    ghost invariant = { λ c. IsRecorded D.is_modelled D.life (string_bytes c.name) (state_of c.core) (recorder_of c.core) × HasPages D.is_modelled D.life (recorder_of c.core) (pages_of c.core) };
}

impl<D: Disk> DurableCore<D> {
    /// What a conversation asks is answered, and the core takes one step; see `Steps`. The rows that a statement
    /// asks for are read ahead of it, once no claim of it clashes. `Full` comes where the record that is due has no
    /// room, with what it needs and what is left; `NoMemory` before any device call but such reads;
    /// `DeviceFailed` in the call in which the device fails, as it reads or as it records, and `Closed` in each later
    /// one. At each of these the core is as before. On the disk there is at any moment what is durable
    /// before the call or behind it.
    ///
    /// A device that need not give back what was written may give a statement other rows of the same tables: then
    /// its answer and its unit are those of the step over these rows, and what is committed stays. Where it gives
    /// what is no page, or no rows of the table, it counts as failed.
    pub fn step(&mut self, conversation: u64, call: &CoreCall<'_, '_, '_>) -> Answer
        ensures step { Steps D.is_modelled (shown_on D.life self.old) conversation (call_of call.now) (answer_of result) (shown_on D.life self.new) }
        ensures journaled { Journaled D.is_modelled (shown_on D.life self.old) (shown_on D.life self.new) }
    {
        recovery::laws::steps_are_recorded();
        recovery::laws::doubts_hold_their_decisions();
        recovery::laws::records_stay();
        recovery::laws::calls_make_records::<D>();
        journal_recorder::laws::pages_are_kept::<D>();
        if self.core.recorder().is_failed() {
            return Answer::Closed;
        }
        self.core.step(conversation, call)
    }

    /// The conversation is lost: its local unit ends, and so does each branch that it was the last to
    /// start or join, and that is not prepared. Nothing is recorded, and no memory is taken.
    pub fn lost(&mut self, conversation: u64) -> Answer
        ensures step { Loses (shown_on D.life self.old) conversation (answer_of result) (shown_on D.life self.new) }
        ensures journaled { Journaled D.is_modelled (shown_on D.life self.old) (shown_on D.life self.new) }
    {
        recovery::laws::steps_are_recorded();
        recovery::laws::doubts_hold_their_decisions();
        recovery::laws::records_stay();
        recovery::laws::calls_make_records::<D>();
        journal_recorder::laws::pages_are_kept::<D>();
        let recorder = self.core.recorder();
        if recorder.is_failed() {
            return Answer::Closed;
        }
        self.core.lost(conversation)
    }

    /// From now on the rows of an answer take so many bytes at most, each 8 beside its own: a query whose rows take more is answered
    /// `NoMemory`. Before, there is no bound.
    pub fn bound_rows(&mut self, bytes: usize)
        ensures { self.new ≡ self.old }
    {
        self.core.bound_rows(bytes);
    }

    /// The name of the database.
    pub fn name(&self) -> &str
        ensures { result.now ≡ self.now.name }
    {
        self.name.as_str()
    }

    /// How many bytes of the journal are left for records.
    pub fn room(&self) -> usize
        ensures { result ≡ self.now.room }
    {
        self.core.recorder().room()
    }

    /// Whether the device has failed.
    pub fn is_failed(&self) -> bool
        ensures { result ≡ self.now.is_failed }
    {
        self.core.recorder().is_failed()
    }

    /// Whether this call would be done alone, with a record, where fewer than 256 branches are in doubt. Takes no
    /// memory.
    pub fn is_ready(&self, call: &GroupCall) -> bool
        ensures { result ≡ is_ready self.now.state call.now }
    {
        self.core.is_ready(call)
    }

    /// The XIDs in doubt, each with its state, by rising bytes. Takes no memory.
    pub fn in_doubt(&self) -> InDoubt<'_>
        ensures xids { xids_left result ≡ in_doubt_xids self.now.state.branches }
        ensures branches { branches_left result ≡ in_doubt_branches self.now.state.branches }
    {
        self.core.in_doubt()
    }

    /// A copy of the whole state as plain lists: the committed tables, of which all rows are read, the units that
    /// have work, and the branches. Nothing is recorded, and the state changes in no case. Memory may be refused.
    /// `DeviceFailed` comes in the call in which the device fails, or gives what is no page, and `Closed` in each
    /// call behind one in which it failed, which makes no device call.
    pub fn plain(&mut self) -> Result<PlainState, PlainError>
        ensures told { IsTrue D.is_modelled → IfOk result (λ plain. plain ≡ self.old.state) }
        ensures copies { Copies D.is_modelled result (shown_on D.life self.old) (shown_on D.life self.new) }
        ensures journaled { Journaled D.is_modelled (shown_on D.life self.old) (shown_on D.life self.new) }
    {
        recovery::laws::doubts_hold_their_decisions();
        recovery::laws::records_stay();
        recovery::laws::calls_make_records::<D>();
        let recorder = self.core.recorder();
        if recorder.is_failed() {
            return Err(PlainError::Closed);
        }
        told(self.core.plain())
    }

    /// The disk, as the last call left it.
    pub fn into_disk(self) -> D
        ensures { result ≡ self.disk }
    {
        self.core.into_recorder().into_disk()
    }

    /// While the device has not failed, what is durable of the core is on the disk to stay. Does nothing.
    pub fn is_durable(&self)
        ensures { IsTrue D.is_modelled → self.now.is_failed ≡ false → IsDurable (shown_on D.life self.now) }
    {
        recovery::laws::calls_make_records::<D>();
        let _name = &self.name;
    }
}
