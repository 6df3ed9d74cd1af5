//! A call of a stream that failed.

/// A call of a stream has failed.
#[derive(Clone, Copy, Debug, PartialEq, Eq)]
pub struct StreamFault;
