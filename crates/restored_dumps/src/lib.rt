//! What the text of a store is worth: asked in its order of a store without tables, it makes the same tables.
#![tactic(auto)]

pub mod laws;
