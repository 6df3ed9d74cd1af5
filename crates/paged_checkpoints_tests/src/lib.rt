//! Tests of checkpoints of tables over pages: what is written, what is opened, and what a crash leaves.
#![tactic(auto)]

#[cfg(test)]
mod changes;
#[cfg(test)]
mod crashes;
#[cfg(test)]
mod damage;
#[cfg(test)]
mod held;
#[cfg(test)]
mod stores;
#[cfg(test)]
mod written;
