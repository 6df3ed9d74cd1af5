//! How long the answers to a query are, so that a caller makes room for them once.

ghost use Rattle.sections.specs.Room.{BlocksAreShort, DescriptionsAreShort};

/// The most bytes that the description of a query's rows has (QRYDSC).
pub const MAX_QRYDSC_LENGTH: usize = 222;

/// The most bytes that a row of an answer has in QRYDTA.
pub const MAX_ANSWER_ROW_LENGTH: usize = 128_194;

/// The most bytes that QRYDTA has besides its rows.
pub const MAX_QRYDTA_HEADING: usize = 12;

/// How long a description and a block are at most, so that room is made before a query is asked.
pub fn answers_are_short()
    ensures descriptions { DescriptionsAreShort }
    ensures blocks { BlocksAreShort }
{}
