//! Laws of the states that records stand for. The functions do nothing: their contracts are the laws.

ghost use Rattle.recovery.specs.Laws.{FrontsStand, GoesOn, HeldForAll, HeldForDoubts, OneMore};
ghost use Rattle.recovery.specs.Journal.{LeadingWereWritten, NoStop, OneState, WrittenLead};
ghost use Rattle.recovery.specs.Laying.{DoubtsAreLaid};
ghost use Rattle.recovery.specs.Places.{ChangesKeepTables, PlacesGoOn, RowsKeepPlaces, TablesGivePlaces};
ghost use Rattle.recovery.specs.Sound.{LeadsAreSound, StatesStaySound};

pub use crate::images::{
    answered_units_stay, calls_go_on, calls_make_groups, calls_make_records, fresh_stores_open,
    groups_open, groups_stay, images_open_there, images_open_to_one_state, records_open,
    records_stay,
};
pub use crate::openings::{crashes_find_points, openings_begin_histories, stores_stay_sane};
pub use crate::places::changes_have_places;
pub use crate::step_laws::{
    groups_are_recorded, heuristics_are_recorded, openings_are_kept, steps_are_recorded,
};

/// Records are replayed one after another: what follows others goes on from where they led, and where
/// all have their places, so has each front of them.
pub fn records_follow_one_another()
    ensures goes_on { GoesOn }
    ensures one_more { OneMore }
    ensures fronts { FrontsStand }
{}

/// The entries of a journal lead to one state at most, and nowhere where they are damaged. They are
/// the records that can be written, and lead to what these are replayed to.
pub fn records_lead_one_way()
    ensures one { OneState }
    ensures damage { NoStop }
    ensures written { WrittenLead }
    ensures back { LeadingWereWritten }
{
    unit_records::laws::records_have_one_reading();
}

/// What is held back in a journal is what the decisions of the units in doubt take.
pub fn doubts_hold_their_decisions()
    ensures { HeldForDoubts }
{}

/// So it is where several records are made one behind another.
pub fn decisions_of_all_are_held()
    ensures { HeldForAll }
{
    doubts_hold_their_decisions();
}

/// When changes that have their places keep them: changes of rows wherever the tables are kept, and all
/// changes where no table is created besides. A change creates a table or leaves all of them.
pub fn places_depend_on_tables()
    ensures go_on { PlacesGoOn }
    ensures rows { RowsKeepPlaces }
    ensures tables { TablesGivePlaces }
    ensures kept { ChangesKeepTables }
{
    tables::laws::changes_are_local();
    tables::laws::changes_make_tables();
}

/// Each record that can be written keeps a state sound: a store, and XIDs in doubt that rise, 256 at
/// most, each with a unit that can be written, that has each claim once, and that has claimed all names
/// where it creates a table.
pub fn states_stay_sound()
    ensures { StatesStaySound }
{
    tables::laws::changes_are_local();
}

/// The state that entries lead to from a checkpoint is sound.
pub fn records_lead_to_sound_states()
    ensures { LeadsAreSound }
{
    states_stay_sound();
}

/// The prepares of units in doubt, laid behind a checkpoint, lead to the state with just these in doubt,
/// where the changes of each have their places in the tables of the checkpoint.
pub fn doubts_are_laid()
    ensures { DoubtsAreLaid }
{
    records_lead_one_way();
}
