//! How much the open cursors of a conversation keep.

use crate::told::Told;
use command_kit::Statements;
use drda_commands::{Accepted, Command};
use std::alloc::{AllocError, Global};

/// A cursor that stayed open behind its opening.
#[derive(Drop)]
struct KeptCursor {
    section: Vec<u8>,
    // The bytes of its rows.
    bytes: usize,
}

/// The cursors that a conversation has opened, and how many bytes of rows they may keep before no further one is opened. No clause
/// speaks of it: what it refuses is refused as memory is.
#[derive(Drop)]
pub(crate) struct KeptCursors {
    pub(crate) most: usize,
    cursors: Vec<KeptCursor>,
    // Room for the name of the section whose cursor is being opened.
    section: Vec<u8>,
    pub(crate) is_opening: bool,
}

impl KeptCursors {
    /// None was opened. Takes no memory.
    pub(crate) fn new(alloc: Global, most: usize) -> KeptCursors {
        KeptCursors {
            most,
            cursors: Vec::new(alloc),
            section: Vec::new(alloc),
            is_opening: false,
        }
    }

    /// Lets a command be done. AllocError where it would open a cursor, and those that are open keep as much as they may already.
    #[inline(always)]
    pub(crate) fn admit(
        &mut self,
        accepted: &Accepted<'_>,
        statements: &Statements,
        told: &mut Told,
    ) -> Result<(), AllocError> {
        match accepted.command {
            Command::Opnqry => {
                told.is_due = true;
                self.begin(statements)
            }
            _ => Ok(()),
        }
    }

    // A cursor is being opened. Room to count it is made before.
    fn begin(&mut self, statements: &Statements) -> Result<(), AllocError> {
        self.is_opening = true;
        self.forget_ended(statements);
        if self.bytes() >= self.most {
            return Err(AllocError);
        }
        self.section.reserve(LONGEST_NAME)?;
        self.cursors.reserve(1)?;
        Ok(())
    }

    /// The command was done, with replies of this severity: a cursor that it has opened, and that has rows left, is counted from now
    /// on. Where none has, ENDQRYRM or a refusal says so, of a greater severity than 0.
    #[inline(always)]
    pub(crate) fn note(
        &mut self,
        alloc: Global,
        accepted: &Accepted<'_>,
        statements: &Statements,
        severity: u16,
    ) {
        if self.is_opening && severity == 0 {
            self.note_opened(alloc, accepted.section().unwrap_or(&[]), statements);
        }
    }

    // The cursor of a section is counted where it has rows left.
    fn note_opened(&mut self, alloc: Global, section: &[u8], statements: &Statements) {
        if let Ok(block) = statements.sections.next_block(section, None, SHORTEST) {
            self.put(alloc, section, block.rows.memory());
        }
    }

    /// The bytes that those keep which have not been forgotten.
    pub(crate) fn bytes(&self) -> usize {
        let mut sum = 0usize;
        for kept in self.cursors.as_slice() {
            sum = sum.saturating_add(kept.bytes);
        }
        sum
    }

    /// Those that have ended are forgotten.
    pub(crate) fn forget_ended(&mut self, statements: &Statements) {
        self.cursors
            .retain(|kept| is_open(statements, &kept.section));
    }

    // The section's cursor keeps so many. There is room for its name.
    fn put(&mut self, alloc: Global, section: &[u8], bytes: usize) {
        for kept in self.cursors.iter_mut() {
            if kept.section.as_slice() == section {
                kept.bytes = bytes;
                return;
            }
        }
        let mut name = std::mem::replace(&mut self.section, Vec::new(alloc));
        let _ = name.extend_from_slice(section);
        let _ = self.cursors.push(KeptCursor {
            section: name,
            bytes,
        });
    }
}

// The most bytes of a section's name (PKGNAMCSN).
const LONGEST_NAME: usize = 791;

// The shortest block: it is asked for where nothing is sent.
const SHORTEST: Option<u32> = Some(1);

// Whether the cursor of a section is open.
fn is_open(statements: &Statements, section: &[u8]) -> bool {
    statements
        .sections
        .next_block(section, None, SHORTEST)
        .is_ok()
}
