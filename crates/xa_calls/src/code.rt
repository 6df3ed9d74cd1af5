//! What an XA call is answered.

ghost use Rattle.std.specs.Prelude.{◌≡◌};
ghost use Rattle.xa_calls.specs.Numbers.{code_number};

/// The XARETVAL of an XA call (C193 chapter 4, "Return Codes"), with its number.
#[derive(Clone, Copy, Debug, PartialEq, Eq)]
pub enum XaCode {
    /// XA_OK.
    Done = 0,
    /// XA_RDONLY: the branch changed nothing, and has ended.
    ReadOnly = 3,
    /// XA_HEURRB: the branch was rolled back heuristically, and is known until it is forgotten.
    HeuristicallyRolledBack = 6,
    /// XA_HEURCOM: the branch was committed heuristically, and is known until it is forgotten.
    HeuristicallyCommitted = 7,
    /// XA_RBROLLBACK: the branch is, or has to be, rolled back.
    RolledBack = 100,
    /// XAER_RMERR: a limit of this server is reached; the branch is as before.
    Limit = -3,
    /// XAER_NOTA: the XID is not known.
    Unknown = -4,
    /// XAER_INVAL: the call, its flags or its XID is none that there is.
    Invalid = -5,
    /// XAER_PROTO: the call has no place in the state that the branch or the caller is in.
    Protocol = -6,
    /// XAER_DUPID: the XID is known already.
    Duplicate = -8,
    /// XAER_OUTSIDE: the caller has work outside of any branch.
    Outside = -9,
}

impl XaCode {
    /// Its number.
    pub fn number(self) -> i32
        ensures { result ≡ code_number self }
    {
        self as i32
    }
}
