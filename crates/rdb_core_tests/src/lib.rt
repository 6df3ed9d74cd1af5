//! Tests of rdb_core.
#![tactic(auto)]

#[cfg(test)]
mod bench;
#[cfg(test)]
mod decisions;
#[cfg(test)]
mod doubts;
#[cfg(test)]
mod few;
#[cfg(test)]
mod fixtures;
#[cfg(test)]
mod reads;
#[cfg(test)]
mod refusals;
