//! Code page 500 (EBCDIC, "International 1"), in which DRDA writes its names and code page text until
//! both sides agree on another one. Only the letters, digits and signs of printable ASCII have a place in
//! it here; the other bytes and characters are outside the table.
#![tactic(auto)]

mod fault;
mod table;
mod text;

pub use fault::CodePageError;
pub use table::{byte_of, char_of, is_one_to_one};
pub use text::{decode, encode};
