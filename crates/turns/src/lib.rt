//! What a turn at the lock was like, how full it left the store, and who may take one.
#![tactic(auto)]

mod gate;
mod gauge;
mod turn;

pub use gate::{Gate, OpenGate};
pub use gauge::{Gauge, Lack};
pub use turn::{Full, Turn};
