//! What a conversation keeps for its statements.

ghost use Rattle.std.specs.Prelude.{◌≡◌};
ghost use Rattle.command_kit.specs.Statements as spec;

use sections::Sections;
use std::alloc::Global;

/// What a conversation keeps for its statements.
#[derive(Drop)]
pub struct Statements {
    /// The statements prepared in its sections, with their cursors.
    pub sections: Sections,
    /// Whether RDBUPDRM has told a change since the conversation's opening or the end of its last unit
    /// (DRDA V5 volume 3, RDBUPDRM).
    pub is_change_told: bool,
}

impl Statements {
    /// No sections, and no change told. Takes no memory.
    pub fn new(alloc: Global) -> Statements
        ensures { result ≡ spec.fresh }
    {
        Statements {
            sections: Sections::new(alloc),
            is_change_told: false,
        }
    }

    /// A unit has ended, and the cursors that it closes are closed: those that are not held where it keeps
    /// the held ones, else all. Takes no memory.
    pub fn end_unit(&mut self, keeps_held: bool)
        ensures { self.new ≡ spec.unit_behind keeps_held self.old }
    {
        self.sections.end_unit(keeps_held);
        self.is_change_told = false;
    }
}
