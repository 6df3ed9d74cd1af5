//! Tests of sqlam_replies.
#![tactic(auto)]

#[cfg(test)]
mod blocks;
#[cfg(test)]
mod fixtures;
#[cfg(test)]
mod texts;
