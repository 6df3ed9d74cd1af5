//! Laws of the definitions. The functions do nothing: their contracts are the laws.

ghost use Rattle.cursor_commands.specs.Blocks.{BlocksAreLongest, BlocksAreOne};
ghost use Rattle.cursor_commands.specs.Laws.{ClosingAsksNobody, ClosingIsLocal, FetchesSendAllRows, FetchingAsksNobody, FetchingIsLocal, OpeningIsLocal, QueriesSendAllRows};

/// A block of so many rows as the definition counts is the longest one of its size, and no other is.
pub fn blocks_are_longest()
    ensures block { BlocksAreLongest }
    ensures one { BlocksAreOne }
{}

/// Only OPNQRY asks.
pub fn only_opening_asks()
    ensures fetching { FetchingAsksNobody }
    ensures closing { ClosingAsksNobody }
{}

/// What is done to a cursor leaves the sections of other names, and their cursors, as they were.
pub fn other_sections_stay()
    ensures opening { OpeningIsLocal }
    ensures fetching { FetchingIsLocal }
    ensures closing { ClosingIsLocal }
{
    sections::laws::calls_are_local();
}

/// A cursor that is read to its end sends each of its remaining rows once, in their order, and ENDQRYRM
/// behind the last one alone; so a query sends each of its rows once.
pub fn fetches_send_all_rows()
    ensures fetches { FetchesSendAllRows }
    ensures queries { QueriesSendAllRows }
{}
