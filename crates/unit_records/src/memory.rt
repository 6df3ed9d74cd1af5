//! Units whose changes are kept in memory alone.

use crate::device_failed::DeviceFailed;
use crate::group_error::GroupError;
use crate::record_contents::RecordContents;
use crate::record_error::RecordError;
use crate::recorder::Recorder;

/// Records nothing: for tables that end with the program.
#[derive(Clone, Copy, Debug, PartialEq, Eq)]
pub struct NoRecords;

impl Recorder for NoRecords {
    ghost use Rattle.std.specs.Prelude.{◌≡◌, refl};

    ghost allows = { λ _ _. Unit {0} };

    ghost records = { λ old _ new. new ≡ old };

    ghost fails = { λ _ _ _ _. ⊥ };

    fn record(&mut self, _saying: RecordContents<'_>) -> Result<(), RecordError> {
        Ok(())
    }

    ghost allows_all = { λ _ _. Unit {0} };

    ghost records_all = { λ old _ new. new ≡ old };

    ghost fails_all = { λ _ _ _. ⊥ };

    fn record_all(&mut self, _sayings: &[RecordContents<'_>]) -> Result<(), GroupError> {
        Ok(())
    }

    ghost lays_ahead = { λ old new. new ≡ old };

    ghost fails_ahead = { λ _ _. ⊥ };

    fn lay_ahead(&mut self, _sayings: &[RecordContents<'_>]) -> Result<bool, DeviceFailed> {
        Ok(false)
    }

    ghost lays_none = { λ _. refl };
}
