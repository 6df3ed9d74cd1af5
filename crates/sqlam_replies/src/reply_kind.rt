//! The kinds of replies.

/// The kind of DSS that a reply goes in.
#[derive(Clone, Copy, Debug, PartialEq, Eq)]
pub enum ReplyKind {
    /// A reply message: DSS type 2.
    Message,
    /// A reply data object: DSS type 3.
    Object,
}
