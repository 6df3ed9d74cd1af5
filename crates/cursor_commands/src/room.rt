//! How many bytes the texts of replies have at most, so that room for them is made before the core is asked.

ghost use Rattle.std.specs.Prelude.{◌≡◌, ◌+◌, max};
ghost use Rattle.cursor_commands.specs.Room as spec;

use sections::{MAX_ANSWER_ROW_LENGTH, MAX_QRYDSC_LENGTH, MAX_QRYDTA_HEADING};
use sqlam_replies::{MAX_MESSAGE_LENGTH, SQLCARD_LENGTH};

/// Of QRYDTA with a block of this size, or with one row.
pub fn rows_text(size: u32) -> usize
    ensures { result ≡ max size 128194 + 12 }
{
    (size as usize).max(MAX_ANSWER_ROW_LENGTH) + MAX_QRYDTA_HEADING
}

/// Of a block of this size and what ends the query behind it.
pub fn block_text(size: u32) -> usize
    ensures { result ≡ spec.block_text size }
{
    rows_text(size) + MAX_MESSAGE_LENGTH + SQLCARD_LENGTH
}

/// Of the replies to a query that is opened with a block of this size.
pub fn opening_text(size: u32) -> usize
    ensures { result ≡ spec.opening_text size }
{
    MAX_MESSAGE_LENGTH + MAX_QRYDSC_LENGTH + block_text(size)
}
