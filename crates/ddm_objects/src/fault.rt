//! Why a text is no list of objects.

use thiserror::Error;

/// Why no object stands at a place.
#[derive(Clone, Copy, Debug, PartialEq, Eq, Error)]
pub enum ObjFault {
    /// A length without its high bit is below 4, so it does not count itself and the code point.
    #[error("an object's length is below four")]
    LengthBelowFour,
    /// The object runs past the end of what holds it; so does one whose length or code point is cut.
    #[error("an object runs past the end of what holds it")]
    PastContainer,
    /// A length with its high bit on announces neither 4, 6 nor 8 bytes of extended length.
    #[error("an object's extended length has no such size")]
    ExtendedLength,
}

impl ObjFault {
    ghost use Rattle.std.specs.Prelude.{◌≡◌};
    ghost use Rattle.ddm_objects.specs.Fault.{syntax_error_code};

    /// The value of SYNERRCD that reports this fault: 07, 08 or 0C (DRDA V5 volume 3, SYNERRCD).
    pub fn syntax_error_code(self) -> u8
        ensures { result ≡ syntax_error_code self }
    {
        match self {
            ObjFault::LengthBelowFour => 0x07,
            ObjFault::PastContainer => 0x08,
            ObjFault::ExtendedLength => 0x0C,
        }
    }
}

/// Why a search for a code point has no answer.
#[derive(Clone, Copy, Debug, PartialEq, Eq, Error)]
pub enum FindFault {
    /// The text is a list of objects, and the code point occurs more than once in it.
    #[error("an object occurs twice")]
    Twice,
    /// The text is no list of objects: the first fault by place.
    #[error("{0}")]
    Fault(ObjFault),
}
