/// What is wrong with the framing of a stream, by the codes of SYNERRCD (DRDA volume 3).
#[derive(Clone, Copy, Debug, PartialEq, Eq)]
pub enum SyntaxCode {
    /// 01: the length of a DSS is below six.
    HeaderTooShort,
    /// 03: the byte after the length is not D0.
    MarkNotD0,
    /// 04: the format byte has its high bit on, or is of no type that a requester sends.
    FormatNotSupported,
    /// 09: the lengths of a DSS and its continuations pass 1,048,576 in all.
    TooLong,
    /// 13: another DSS had to come: a request, or an object of the command under way.
    WrongTurn,
    /// 16: the length of a continuation is two or less.
    ContinuationTooShort,
    /// 18: the next DSS is to have the same correlator, but none is chained.
    SameCorrelatorUnchained,
}

impl SyntaxCode {
    ghost use Rattle.std.specs.Prelude.{◌≡◌};
    ghost use Rattle.dss_frames.specs.Fault.{synerrcd};

    /// The number that stands in SYNERRCD.
    pub fn synerrcd(self) -> u8
        ensures { result ≡ synerrcd self }
    {
        match self {
            SyntaxCode::HeaderTooShort => 0x01,
            SyntaxCode::MarkNotD0 => 0x03,
            SyntaxCode::FormatNotSupported => 0x04,
            SyntaxCode::TooLong => 0x09,
            SyntaxCode::WrongTurn => 0x13,
            SyntaxCode::ContinuationTooShort => 0x16,
            SyntaxCode::SameCorrelatorUnchained => 0x18,
        }
    }
}

/// The first fault of a stream, and the correlator of the DSS that it stands in.
#[derive(Clone, Copy, Debug, PartialEq, Eq)]
pub struct FrameFault {
    pub code: SyntaxCode,
    pub correlator: u16,
}
