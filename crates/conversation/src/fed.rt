//! What became of bytes that a conversation was given.

/// What became of a piece of bytes.
#[derive(Clone, Copy, Debug, PartialEq, Eq)]
pub struct Fed {
    /// How many bytes of the piece were taken, from its front.
    pub taken: usize,
    /// How it stands with the conversation now.
    pub state: FedState,
}

/// How it stands with a conversation that was fed.
#[derive(Clone, Copy, Debug, PartialEq, Eq)]
pub enum FedState {
    /// All bytes were taken, and more may come.
    Open,
    /// The conversation is closed: a fault of the framing was answered, or a command by AGNPRMRM, now or
    /// before. Where it is answered now, the last byte that was taken is the last one of the faulty header
    /// or of the command; a conversation that was closed before takes none.
    Closed,
    /// Memory was refused to the command that these bytes completed: it was not done, and this is its
    /// reply, which comes behind what was appended. The rest of the piece is to be fed again.
    Short([u8; 16]),
    /// Memory was refused: the conversation is open, the rest of the piece was not taken (there is
    /// some, unless the piece was empty), and is to be fed again.
    Later,
}

/// How a conversation stands that was given all of a piece, or what was taken of it.
#[derive(Clone, Copy, Debug, PartialEq, Eq)]
pub enum Heard {
    /// It heard all of the piece and waits for more.
    Open,
    /// It is closed, and hears nothing that comes after the piece.
    Closed,
    /// Memory was refused: not all of the piece was heard, or not all replies were appended.
    NoMemory,
}

/// What became of a piece of which a conversation was given as much as `out` had room for.
#[derive(Clone, Copy, Debug, PartialEq, Eq)]
pub struct HeardSome {
    /// How many bytes of the piece were taken, from its front.
    pub taken: usize,
    /// How it stands with the conversation now, by these bytes.
    pub heard: Heard,
}
