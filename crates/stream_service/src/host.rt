//! Whose guest a conversation is.

use conversation::Access;

/// Whose guest a conversation is: it says how much its cursors may keep, and looks on as it comes towards the database. What is said of
/// the service does not depend on it.
pub trait Host {
    /// With so many bytes of rows kept for its open cursors a conversation opens no further one, as where memory is refused; nor one that
    /// would bring them past it, where who is asked knows the bound.
    fn cursor_bytes(&self) -> usize {
        usize::MAX
    }

    /// Bytes have come of a conversation that has not opened the database; they are heard once this returns.
    fn came(&mut self) {}

    /// The conversation has come so far, and what it is answered is written once this returns. Before it has opened the database this is
    /// asked for each answer; then for as many as are written at once.
    fn look(&mut self, _access: Access) {}
}

/// A host who lets a conversation keep what it likes, and does not look on.
#[derive(Clone, Copy)]
pub struct OpenHouse;

impl Host for OpenHouse {}
