//! Names on the wire: in UTF-8 or in code page 500, as they come and as they are answered.
#![tactic(auto)]

mod names;

pub use names::{is_name, is_padded_name, push_name, push_padded};
