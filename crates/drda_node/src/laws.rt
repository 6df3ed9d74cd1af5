//! Laws of the definitions. The functions do nothing: their contracts are the laws.

ghost use Rattle.drda_node.specs.Calls.{CallsAreHistories};
ghost use Rattle.drda_node.specs.Stations.{AnswersStay};

pub use crate::serial::machines_are_serial;
use drda_disk::Disk;

/// What conversations, losses and events do to the core of a machine is a history of calls, each with its
/// answer: so the law of serial order speaks of what was answered.
pub fn calls_are_histories()
    ensures { CallsAreHistories }
{}

/// What stood on the disk behind an event of a run is there at each later moment of it: at each station the calls from there
/// to the end of the run are journaled.
pub fn answered_events_stay<D: Disk>()
    ensures { AnswersStay D.is_modelled D.life }
{
    recovery::laws::calls_go_on::<D>();
}
