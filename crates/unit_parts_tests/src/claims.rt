//! Claims by their parts.

use std::alloc::{AllocError, Global};
use unit_locks::{Access, Claim};

/// What is claimed: the access, the table and the key.
pub type Parts = (Access, &'static [u8], Option<&'static [u8]>);

/// The claim of these parts. Of a longer name than a claim can have, one without a name.
pub fn claim(alloc: Global, parts: &Parts) -> Result<Claim, AllocError> {
    let (access, table, key) = *parts;
    let table = if table.len() > 255 { b"" } else { table };
    match key {
        Some(key) if key.len() > 65_535 => Claim::new(alloc, access, table, None),
        key => Claim::new(alloc, access, table, key),
    }
}
