//! Turns.

use crate::turn::Turn;

/// Who may go on; asked outside of the lock, and so of no call for which the lock was kept.
pub trait Gate {
    /// The n-th call of a conversation, from 0 on, is about to be made. Returns when it may be.
    fn turn(&self, conversation: u64, n: u64);

    /// A call of a conversation was made, and its turn at the lock was like this.
    fn after(&self, _conversation: u64, _turn: &Turn) {}
}

/// A gate that stands open.
#[derive(Clone, Copy)]
pub struct OpenGate;

impl Gate for OpenGate {
    fn turn(&self, _conversation: u64, _n: u64) {}
}
