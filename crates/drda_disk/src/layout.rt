//! What all that lies on a disk has in common.

/// The bytes of a page, the unit in which a store lies.
pub const PAGE_BYTES: usize = 8_192;

/// The byte that opens a gate: what lies behind it is there once it is written, and one byte is
/// written whole or not at all. Any other byte is a closed gate.
pub const OPEN_GATE: u8 = 0xA5;

/// What is written to close a gate: behind a closed one nothing is read.
pub const CLOSED_GATE: u8 = 0;
