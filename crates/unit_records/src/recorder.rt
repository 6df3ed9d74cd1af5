//! Who records.

ghost use Rattle.std.specs.Prelude.{IfErr, List, OnErr, OnOk, map};
ghost use Rattle.unit_records.specs.Records.{UnitRecord};
ghost use Rattle.unit_records.specs.RecordContents.{said_by};
ghost use Rattle.unit_records.specs.Together.{FailsTogether};
ghost use Rattle.unit_records.specs.declared.record_error.RecordError.{RecordError as Error};

use crate::device_failed::DeviceFailed;
use crate::group_error::GroupError;
use crate::record_contents::RecordContents;
use crate::record_error::RecordError;

/// Who records what becomes of units, one record after another. Contracts know it by what a record may
/// make of it: `allows` says of which records it may be asked, `records` what it is once such a record
/// is made, and `fails` what it is where that is refused. `allows_all`, `records_all` and `fails_all` say
/// the same of records that are made together; `fails_all` of the device alone.
///
/// Records that go together may be laid ahead, so that the device is flushed while others are served: `lays_ahead` and
/// `fails_ahead` say what that may make of the recorder. It promises nothing but that all is as it was.
pub trait Recorder {
    ghost allows: { Self → UnitRecord → Type 0 };

    ghost records: { Self → UnitRecord → Self → Type 0 };

    ghost fails: { Self → UnitRecord → Error → Self → Type 0 };

    /// Records this.
    fn record(&mut self, saying: RecordContents<'_>) -> Result<(), RecordError>
        requires allowed { allows self.old (said_by saying) }
        ensures ok { OnOk result (records self.old (said_by saying.entry) self.new) }
        ensures err { IfErr result (λ error. fails self.old (said_by saying.entry) error self.new) };

    ghost allows_all: { Self → List UnitRecord → Type 0 };

    ghost records_all: { Self → List UnitRecord → Self → Type 0 };

    ghost fails_all: { Self → List UnitRecord → Self → Type 0 };

    /// Records these, one behind another: all of them, or none.
    fn record_all(&mut self, sayings: &[RecordContents<'_>]) -> Result<(), GroupError>
        requires allowed { allows_all self.old (map said_by sayings.now) }
        ensures ok { OnOk result (records_all self.old (map said_by sayings.now) self.new) }
        ensures err { IfErr result (λ error. FailsTogether fails_all (map said_by sayings.now) error self.old self.new) };

    ghost lays_ahead: { Self → Self → Type 0 };

    ghost fails_ahead: { Self → Self → Type 0 };

    /// Lays these ahead of being made together, as a hint: whether they lie there then. All is as it was.
    fn lay_ahead(&mut self, sayings: &[RecordContents<'_>]) -> Result<bool, DeviceFailed>
        requires allowed { allows_all self.old (map said_by sayings.now) }
        ensures ok { OnOk result (lays_ahead self.old self.new) }
        ensures err { OnErr result (fails_ahead self.old self.new) };

    ghost allows_early: { Self → List UnitRecord → Type 0 } = { λ _ _. Unit {0} };

    /// Has these count on the device before they are made, where they were laid ahead and the device was flushed since, as a hint:
    /// whether they do then. All is as it was. Nothing is done by itself.
    fn open_early(&mut self, sayings: &[RecordContents<'_>]) -> Result<bool, DeviceFailed>
        requires allowed { allows_all self.old (map said_by sayings.now) }
        requires early { allows_early self.old (map said_by sayings.now) }
        ensures ok { OnOk result (lays_ahead self.old self.new) }
        ensures err { OnErr result (fails_ahead self.old self.new) }
    {
        let _ = sayings;
        Ok(false)
    }

    /// Who lays nothing is as it was.
    ghost lays_none: { (recorder : Self) → lays_ahead recorder recorder };
}
