//! Why a command is refused.

use ddm_objects::ObjFault;

/// What a SYNTAXRM tells by its SYNERRCD (DRDA V5 volume 3) of a command whose DSSs are whole.
#[derive(Clone, Copy)]
pub enum SyntaxError {
    /// 07, 08 or 0C: an object has a length that can't be, or runs past its container.
    InObject(ObjFault),
    /// 0B: bytes stand behind the command object.
    BytesLeft,
    /// 0E: the command object, or a parameter or data object that the command wants, is not there.
    Missing,
    /// 0F: more than eight data objects.
    TooManyObjects,
    /// 12: a parameter or data object stands there twice.
    Twice,
    /// 0B: the data of SQLSTT or SQLATTR are not two texts, or bytes stand behind them.
    MalformedText,
}

impl SyntaxError {
    ghost use Rattle.std.specs.Prelude.{◌≡◌};
    ghost use Rattle.drda_commands.specs.Refusals.{synerrcd_for};

    /// The number that stands in SYNERRCD.
    pub fn synerrcd(self) -> u8
        ensures { result ≡ synerrcd_for self }
    {
        match self {
            SyntaxError::InObject(fault) => fault.syntax_error_code(),
            SyntaxError::BytesLeft => 0x0B,
            SyntaxError::Missing => 0x0E,
            SyntaxError::TooManyObjects => 0x0F,
            SyntaxError::Twice => 0x12,
            SyntaxError::MalformedText => 0x0B,
        }
    }
}

/// Why a command is refused, by the reply message that says so.
#[derive(Clone, Copy)]
pub enum Refusal {
    /// SYNTAXRM.
    Syntax(SyntaxError),
    /// PRCCNVRM: the command does not come at this stage.
    OutOfTurn,
    /// RDBACCRM: the database was accessed before.
    RdbAccessed,
    /// RDBNACRM: the command needs the database, which was not accessed.
    RdbNotAccessed,
    /// CMDNSPRM, with the code point of the command.
    CommandNotSupported(u16),
    /// VALNSPRM, with the code point of the parameter or data object.
    ValueNotSupported(u16),
}
