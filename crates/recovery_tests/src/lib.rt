//! Tests of recovery.
#![tactic(auto)]

#[cfg(test)]
mod journals;
#[cfg(test)]
mod places;
