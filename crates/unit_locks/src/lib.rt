//! What units of work claim of tables, and when two claims clash.
#![tactic(auto)]

mod access;
mod claim;
mod claims;
mod hash;
mod holder;
mod index;
pub mod laws;
mod lists;
mod place;
mod unit_id;

pub use access::Access;
pub use claim::{Claim, MAX_KEY_BYTES, MAX_NAME_BYTES, ReadError};
pub use claims::Claims;
pub use unit_id::UnitId;
