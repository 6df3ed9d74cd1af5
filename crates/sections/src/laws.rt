//! Laws of the definitions. The functions do nothing: their contracts are the laws.

ghost use Rattle.sections.specs.Fetching.{EndsSoon, SendsAllRows};
ghost use Rattle.sections.specs.Laws.{AdvancingIsLocal, ClosingCloses, ClosingIsLocal, OpeningIsLocal, PreparingKeepsCursors, UnitsEndCursors, UnitsKeepStatements};

/// A cursor that is read block by block sends each of its rows once, in their order, and comes to its
/// end.
pub fn blocks_send_all_rows()
    ensures all { SendsAllRows }
    ensures soon { EndsSoon }
{}

/// A statement that is prepared anew leaves the open cursors as they were.
pub fn preparing_keeps_cursors()
    ensures { PreparingKeepsCursors }
{}

/// The end of a unit ends each cursor by what it is, and keeps the prepared statements.
pub fn units_end_cursors()
    ensures cursors { UnitsEndCursors }
    ensures statements { UnitsKeepStatements }
{}

/// What is done to a cursor is done to that of one section alone.
pub fn calls_are_local()
    ensures opened { OpeningIsLocal }
    ensures advanced { AdvancingIsLocal }
    ensures closed { ClosingIsLocal }
    ensures none { ClosingCloses }
{}
