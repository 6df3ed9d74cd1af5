//! How a statement is refused.

ghost use Rattle.std.specs.Prelude.{◌≡◌};
ghost use Rattle.core_calls.specs.Refusal.{fault_of};

use crate::sql_fault::SqlFault;

/// How a statement is refused. On the wire each is an SQLCODE; what is kept apart here is what became
/// of the claims of the unit.
#[derive(Clone, Copy, Debug, PartialEq, Eq)]
pub enum Refusal {
    /// Before the statement claimed anything: it is of the wrong kind, or has another number of
    /// parameters than markers.
    Unfit(SqlFault),
    /// Another unit claims what the statement would read or write. Its claims are not kept.
    Clashes,
    /// The unit would have more claims than a unit may have. None of the statement's are kept.
    TooManyClaims,
    /// By what the statement means. Its claims are kept.
    Meaning(SqlFault),
}

impl Refusal {
    /// The fault that is told.
    pub fn fault(self) -> SqlFault
        ensures { result ≡ fault_of self }
    {
        match self {
            Refusal::Unfit(fault) | Refusal::Meaning(fault) => fault,
            Refusal::Clashes => SqlFault::Claimed,
            Refusal::TooManyClaims => SqlFault::LimitReached,
        }
    }
}
