//! How much a conversation keeps.

use drda_commands::Stage;

/// How many bytes of a command that is not whole yet a front keeps before it takes no more of it, as where memory is refused. So one
/// that has no database open can be bound more closely.
#[derive(Clone, Copy, Debug, PartialEq, Eq)]
pub struct Budget {
    /// Before a database is opened.
    pub unopened: usize,
    /// Once one is open.
    pub opened: usize,
    /// How many bytes of rows its open cursors keep before no further one is opened, as where memory is refused. The last one may
    /// bring them past it, where who is asked does not know the bound.
    pub cursor_bytes: usize,
}

impl Budget {
    /// Memory alone is the bound.
    pub fn unbounded() -> Budget {
        Budget {
            unopened: usize::MAX,
            opened: usize::MAX,
            cursor_bytes: usize::MAX,
        }
    }

    /// The bytes that are kept at each stage of a conversation.
    pub(crate) fn least(&self) -> usize {
        self.unopened.min(self.opened)
    }

    /// The bytes that are kept at a stage of a conversation.
    pub(crate) fn at(&self, stage: Stage) -> usize {
        match stage {
            Stage::Opened => self.opened,
            _ => self.unopened,
        }
    }
}
