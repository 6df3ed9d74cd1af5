//! What is remembered of one conversation.

ghost use Rattle.std.specs.Prelude.{◌≡◌};
ghost use Rattle.session_commands.specs.Session.{fresh};

use crate::levels::none_agreed;
use drda_commands::Stage;

/// What was agreed on with the last MGRLVLLS.
#[derive(Clone, Copy)]
pub struct Agreed {
    /// UNICODEMGR has CCSID 1208: names may come, and are answered, in UTF-8.
    pub unicode: bool,
    /// The level of XAMGR; 0 where there is none.
    pub xa: u16,
}

/// The state of one conversation between its commands.
#[derive(Clone, Copy)]
pub struct Session {
    /// How far it has come.
    pub stage: Stage,
    /// What was agreed on with EXCSAT.
    pub agreed: Agreed,
    /// The chain under way is broken: its other commands are read, and not done.
    pub is_broken: bool,
    /// A fault of the framing, or of who is asked, closed the conversation.
    pub is_closed: bool,
}

/// What is remembered of a conversation of which nothing has come: it is fresh, nothing is agreed on, and it
/// is neither broken nor closed.
pub fn fresh_session() -> Session
    ensures { result ≡ fresh }
{
    Session {
        stage: Stage::Fresh,
        agreed: none_agreed(),
        is_broken: false,
        is_closed: false,
    }
}
