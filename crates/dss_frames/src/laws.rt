ghost use Rattle.std.specs.Prelude.{[], ◌++◌, ℕ, List};
ghost use Rattle.dss_frames.specs.Dss.{Dss};
ghost use Rattle.dss_frames.specs.Fault.{BeginsWith, FaultAt, IsUnfinished};
ghost use Rattle.dss_frames.specs.Reading.{HasOneReading, StandsOnce};
ghost use Rattle.dss_frames.specs.declared.fault.FrameFault.{FrameFault};

pub use crate::writing::written_dss_is_read;

/// Every text has exactly one reading: commands, and then what may still become one, or a fault.
pub fn one_reading()
    ensures { (text : List ℕ) → HasOneReading text }
{}

/// A text has a command in front, or a fault, or neither, and of each at most one: and what has
/// come once stays, whatever comes behind it.
pub fn stays_read()
    ensures nothing { IsUnfinished [] }
    ensures one { (bytes : List ℕ) → StandsOnce bytes }
    ensures command { (bytes more rest : List ℕ) (dsss : List Dss) → BeginsWith bytes dsss rest → BeginsWith (bytes ++ more) dsss (rest ++ more) }
    ensures fault { (bytes more : List ℕ) (fault : FrameFault) → FaultAt bytes fault → FaultAt (bytes ++ more) fault }
{}
