//! The way to the database.

ghost use Rattle.std.specs.Prelude.{◌≡◌};
ghost use Rattle.conversation.specs.Access as spec;

use drda_commands::Stage;

/// How far a conversation has come towards the database.
#[derive(Clone, Copy)]
pub struct Access {
    /// How many of its SECCHKs were answered that the user is not checked. No clause says so.
    pub refused: u64,
    /// Whether its user was checked.
    pub is_checked: bool,
    /// Whether it has opened the database.
    pub is_opened: bool,
}

/// Whether the user was checked at a stage.
pub(crate) fn is_checked(stage: Stage) -> bool
    ensures { result ≡ spec.is_checked stage }
{
    match stage {
        Stage::Checked | Stage::Opened => true,
        Stage::Fresh | Stage::Known | Stage::MechanismChosen(_) => false,
    }
}

/// Whether the database is open at a stage.
pub(crate) fn is_opened(stage: Stage) -> bool
    ensures { result ≡ spec.is_opened stage }
{
    match stage {
        Stage::Opened => true,
        Stage::Fresh | Stage::Known | Stage::MechanismChosen(_) | Stage::Checked => false,
    }
}

/// How many checks have failed, behind one that leaves this stage.
pub(crate) fn refused_behind(refused: u64, stage: Stage) -> u64 {
    refused.saturating_add(u64::from(!is_checked(stage)))
}
