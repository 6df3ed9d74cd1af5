//! Laws of the definitions. The functions do nothing: their contracts are the laws.

ghost use Rattle.recovery.specs.Openings.{CrashesFindPoints, CrashesLeaveSane, EntriesTell, ImagesAreSound, ImagesBegin, OpeningsBegin, OpeningsStaySane, RecordsGoOn, StoresStaySane};

/// What a store opens to, whatever its bytes are, begins a history as the law of serial order asks it: one
/// store, branches that rise, and no unit with work but those of prepared branches.
pub fn openings_begin_histories()
    ensures states { OpeningsBegin }
    ensures images { ImagesBegin }
    ensures sound { ImagesAreSound }
{
    store_check::laws::checkpoints_are_known();
    crate::laws::openings_are_kept();
    crate::laws::records_lead_to_sound_states();
}

/// What a crash leaves of a history of calls and heuristic decisions, the state after the first of its records, was durable at
/// some point of it. Records are known by their entries.
pub fn crashes_find_points()
    ensures points { CrashesFindPoints }
    ensures go_on { RecordsGoOn }
    ensures entries { EntriesTell }
{
    crate::laws::steps_are_recorded();
    crate::laws::heuristics_are_recorded();
    unit_records::laws::records_have_one_reading();
}

/// The rest of what serial order asks, that each change of a unit in doubt lies in a write claim of it:
/// it holds after an opening where it held of the core that made the unit, over any crash, and so of every
/// store that was made and then written by calls and heuristic decisions alone.
pub fn stores_stay_sane()
    ensures opened { OpeningsStaySane }
    ensures crashed { CrashesLeaveSane }
    ensures lives { StoresStaySane }
{
    core_model::laws::histories_are_sane();
    crate::laws::openings_are_kept();
    crate::laws::records_lead_to_sound_states();
    crate::laws::steps_are_recorded();
    crate::laws::heuristics_are_recorded();
}
