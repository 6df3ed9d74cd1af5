//! What a conversation keeps between its commands: the statements prepared in its sections, their open
//! cursors, and how far the rows of each were sent (DRDA V5 volume 3: PRPSQLSTT, OPNQRY, CNTQRY,
//! CLSQRY). It asks no database and writes no reply.
#![tactic(auto)]

mod cursor;
mod fault;
pub mod laws;
mod lengths;
mod name;
mod named;
mod section;
mod sections;

pub use cursor::Block;
pub use fault::{NotPrepared, OpenFault, QueryNotOpen};
pub use lengths::{
    MAX_ANSWER_ROW_LENGTH, MAX_QRYDSC_LENGTH, MAX_QRYDTA_HEADING, answers_are_short,
};
pub use sections::Sections;

// A crate can name the sections in a contract only if the types of their fields are exported.
#[doc(hidden)]
pub use cursor::Cursor;
#[doc(hidden)]
pub use name::Name;
#[doc(hidden)]
pub use section::{Preparation, Section};
