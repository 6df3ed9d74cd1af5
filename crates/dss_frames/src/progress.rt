use crate::turn::Turn;

/// The header that comes next: that of a DSS, or that of a continuation of the DSS under way, with
/// its format byte, its correlator and the bytes that its segments have declared so far.
#[derive(Clone, Copy)]
pub enum Expected {
    Header(Turn),
    Continuation(u8, u16, usize),
}

/// How far the headers of a command are judged: where the next one begins, be it there or not.
#[derive(Clone, Copy)]
pub struct Progress {
    pub at: usize,
    pub expected: Expected,
}

/// What a look at the headers that have come finds, if no fault.
#[derive(Clone, Copy)]
pub enum Found {
    /// A whole command of so many bytes.
    Command(usize),
    /// No command yet.
    Nothing(Progress),
}
