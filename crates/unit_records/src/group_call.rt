//! Calls that are made together.

ghost use Rattle.std.specs.Prelude.{◌≡◌, ◌↔◌, IsTrue};

use crate::phase::Phase;
use xa_calls::Xid;

/// What is asked in a call that can be made together with others.
#[derive(Clone, Copy, Debug)]
pub enum Asked {
    /// That the local unit of the conversation commits.
    Commit,
    /// That a branch goes through a phase of two-phase commit.
    Through(Phase, Xid),
}

impl Asked {
    /// Whether both ask the same.
    pub fn is_same(&self, other: &Asked) -> bool
        ensures { IsTrue result ↔ (self.now ≡ other.now) }
    {
        match (self, other) {
            (Asked::Commit, Asked::Commit) => true,
            (Asked::Through(phase, xid), Asked::Through(other, another)) => {
                *phase == *other && *xid == *another
            }
            _ => false,
        }
    }
}

/// One of the calls that are made together.
#[derive(Clone, Copy, Debug)]
pub struct GroupCall {
    /// The conversation that asks.
    pub conversation: u64,
    /// What it asks.
    pub asked: Asked,
}
