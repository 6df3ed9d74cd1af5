//! A plain program beside the law of serial order: it runs random lists of events, runs what was
//! committed once more with the units alone, and compares.
#![tactic(auto)]

#[cfg(test)]
mod events;
#[cfg(test)]
mod random;
#[cfg(test)]
mod serial;
#[cfg(test)]
mod statements;
#[cfg(test)]
mod store;
