//! The state, told as it stands.

ghost use Rattle.std.specs.Prelude.{◌≡◌, IfOk, IsTrue};
ghost use Rattle.ahead_view.specs.Source.{LeavesReader};
ghost use Rattle.rdb_core.specs.Copied.{FailsOn, ReadsOn};
ghost use Rattle.rdb_core.specs.State.{pages_of, recorder_of, state_of};

use crate::PlainState;
use crate::engine::Core;
use ahead_view::{ReadError, Source};
use unit_records::Recorder;

impl<R: Recorder + Source> Core<R> {
    /// A copy of the whole state as plain lists: the committed tables, of which all rows are read, the
    /// units that have work, and the branches. Nothing is recorded. Memory may be refused, and the device may
    /// fail in a read; the state changes in no case.
    pub fn plain(&mut self) -> Result<PlainState, ReadError>
        requires holds { R.holds (recorder_of self.old) (pages_of self.old) }
        ensures told { IsTrue R.is_told → IfOk result (λ plain. plain ≡ state_of self.old) }
        ensures state { state_of self.new ≡ state_of self.old }
        ensures pages { pages_of self.new ≡ pages_of self.old }
        ensures recorder { LeavesReader (ReadsOn R.reads) (FailsOn R.reads R.fails_to_read) (recorder_of self.old) result (recorder_of self.new) }
    {
        PlainState::of(
            &mut self.recorder,
            self.alloc,
            &self.base.tables,
            &self.base.units,
            &self.branches,
        )
    }
}
