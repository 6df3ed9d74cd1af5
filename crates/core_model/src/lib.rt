//! The core's one step over plain data: what a call of a conversation is answered, and what it makes of
//! the committed store, the units and the branches. There is no code here but laws.
#![tactic(auto)]

pub mod laws;
