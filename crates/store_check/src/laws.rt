//! Laws of whole and of damaged pages.
ghost use Rattle.store_check.specs.Checkpoint.{CheckpointIsNotBad, CheckpointsAreFramed, CheckpointsAreStores, NoPagesHaveNoTables, OneCheckpoint};
ghost use Rattle.store_check.specs.Half.{OneFirstBadOfHalf, OneWholeHalf, WholeHalfIsNotBad};
ghost use Rattle.store_check.specs.Listed.{ListedIsNotBad};
ghost use Rattle.store_check.specs.Moment.{MomentsHold};
ghost use Rattle.store_check.specs.Written.{WrittenHalfIsWhole, WrittenIsListed, WrittenIsWhole};
ghost use Rattle.store_check.specs.Whole.{OneFirstBad, OneWhole, WholeIsNotBad, WholeIsStored};

/// Pages that are whole have no first bad one.
pub fn whole_is_not_bad()
    ensures { WholeIsNotBad }
{
    row_pages::laws::one_page();
}

/// Pages have one first bad one at most.
pub fn one_first_bad()
    ensures { OneFirstBad }
{
    row_pages::laws::one_page();
}

/// Pages are whole with one list of rows at most.
pub fn one_whole()
    ensures { OneWhole }
{
    row_pages::laws::one_page();
}

/// Pages that are whole are a table's, as its map asks for them.
pub fn whole_is_stored()
    ensures { WholeIsStored }
{}

/// The pages of a catalogue have no first bad one.
pub fn listed_is_not_bad()
    ensures { ListedIsNotBad }
{
    row_pages::laws::one_page();
}

/// A table that was written is whole, where its rows are rows of the schema.
pub fn written_is_whole()
    ensures { WrittenIsWhole }
{
    row_pages::laws::one_laying();
}

/// A catalogue that was written is whole, where the names of its tables rise and their pages lie one
/// behind another.
pub fn written_is_listed()
    ensures { WrittenIsListed }
{
    row_pages::laws::one_page();
    row_pages::laws::one_laying();
    checkpoint_writer::laws::catalogues_are_read();
}

/// A half that is whole has no first bad page.
pub fn whole_half_is_not_bad()
    ensures { WholeHalfIsNotBad }
{
    row_pages::laws::one_page();
}

/// A half has one first bad page at most.
pub fn one_first_bad_of_half()
    ensures { OneFirstBadOfHalf }
{
    row_pages::laws::one_page();
}

/// A half is whole with one list of tables and rows at most.
pub fn one_whole_half()
    ensures { OneWholeHalf }
{
    row_pages::laws::one_page();
}

/// A half is whole into which tables were written one behind another, and behind them their catalogue.
pub fn written_half_is_whole()
    ensures { WrittenHalfIsWhole }
{
    row_pages::laws::one_page();
    row_pages::laws::one_laying();
    checkpoint_writer::laws::catalogues_are_read();
}

/// The pages of a half have one checkpoint at most, and where they have one, no first bad page. Its tables
/// are a store. Pages that read the same have the same checkpoint, and no pages have no tables.
pub fn checkpoints_are_known()
    ensures one { OneCheckpoint }
    ensures sound { CheckpointIsNotBad }
    ensures stores { CheckpointsAreStores }
    ensures framed { CheckpointsAreFramed }
    ensures none { NoPagesHaveNoTables }
{
    one_whole_half();
    whole_half_is_not_bad();
    key_map::laws::forms_keep_order();
    key_map::laws::rows_have_their_forms();
}

/// At each moment of a checkpoint an image holds the tables and the records that were there before, in
/// the half that was active; or those that are written, in the other one.
pub fn moments_hold()
    ensures { MomentsHold }
{
    checkpoints_are_known();
}
