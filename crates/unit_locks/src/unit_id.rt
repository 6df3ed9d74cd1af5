//! The names of units.

/// A unit, by its place in its owner's table of units, from 0 on. Places are used again: `Claims`
/// keeps a list for each place up to the greatest that had a claim.
#[derive(Clone, Copy, Debug, PartialEq, Eq)]
pub struct UnitId(pub u16);
