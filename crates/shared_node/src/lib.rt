//! One book under a lock, asked by many threads.
#![tactic(auto)]

mod asker;
pub mod closing;
mod desk;
mod held;
mod hold;
mod keeping;
pub mod lasting;
mod origin;
mod owing;
mod returning;
mod shared;
mod turn;
mod waiting;

pub use core_history::{Acted, Book, CallList, Count, Left, Pass, Wish};
pub use desk::{Desk, Ended};
pub use origin::Origin;
pub use shared::Shared;
pub use turns::{Full, Gate, Gauge, Lack, OpenGate, Turn};
