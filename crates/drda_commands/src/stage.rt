//! How far a conversation has come.

/// How far a conversation has come (DRDA V5 volume 1, "Connection Flows").
#[derive(Clone, Copy)]
pub enum Stage {
    /// No EXCSAT has come.
    Fresh,
    /// The servers' attributes were exchanged.
    Known,
    /// A security mechanism was agreed on.
    MechanismChosen(Mechanism),
    /// The user was checked.
    Checked,
    /// The database was accessed: commands that need it may come.
    Opened,
}

/// A security mechanism (DRDA V5 volume 3, SECMEC).
#[derive(Clone, Copy)]
pub enum Mechanism {
    /// 0003, USRIDPWD: a user and a password.
    UserAndPassword,
    /// 0004, USRIDONL: a user alone.
    UserOnly,
}
