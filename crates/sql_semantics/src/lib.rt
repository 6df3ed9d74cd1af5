//! What statements mean over a store, and what they claim.
#![tactic(auto)]

pub mod laws;
mod truth;

pub use truth::Truth;
