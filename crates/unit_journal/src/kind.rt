//! What a record says of its unit.
ghost use Rattle.std.specs.Prelude.{◌≡◌, ◌≢◌, IfSome, IfNone};

/// What a record says of its unit. Each kind has a byte of its own on the disk.
#[derive(Clone, Copy, Debug, PartialEq, Eq)]
pub enum Kind {
    /// The unit committed: 01.
    Commit,
    /// The unit was prepared and is in doubt: 02.
    Prepare,
    /// A unit in doubt was decided: 03.
    Decide,
    /// A unit in doubt was decided heuristically: 04.
    Heuristic,
    /// A unit that was decided heuristically was forgotten: 05.
    Forget,
}

impl Kind {
    ghost use Rattle.unit_journal.specs.Kind.{code_of};
    ghost use Rattle.unit_journal.specs.declared.kind.Kind.{Kind};

    pub(crate) fn code(self) -> u8
        ensures { result ≡ code_of self }
    {
        match self {
            Kind::Commit => 1,
            Kind::Prepare => 2,
            Kind::Decide => 3,
            Kind::Heuristic => 4,
            Kind::Forget => 5,
        }
    }

    pub(crate) fn from_code(code: u8) -> Option<Kind>
        ensures known { IfSome result (λ kind. code ≡ code_of kind) }
        ensures unknown { IfNone result ((kind : Kind) → code ≢ code_of kind) }
    {
        match code {
            1 => Some(Kind::Commit),
            2 => Some(Kind::Prepare),
            3 => Some(Kind::Decide),
            4 => Some(Kind::Heuristic),
            5 => Some(Kind::Forget),
            _ => None,
        }
    }
}
