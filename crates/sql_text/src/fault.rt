//! Why a text is not read.

ghost use Rattle.std.specs.Prelude.{◌≡◌};

use std::alloc::AllocError;

/// Why reading stops.
#[derive(Drop)]
pub(crate) enum Fault {
    /// No statement has the token here from which on there are so many bytes, or ends here.
    Unexpected(usize),
    /// Parentheses and NOTs are nested too deep.
    Deep,
    Memory,
}

impl From<AllocError> for Fault {
    ghost use Rattle.sql_text.specs.declared.fault.Fault.TheVariants.{Memory};

    ghost from_gives = { λ _ e. e ≡ Memory };

    fn from(_: AllocError) -> Fault {
        Fault::Memory
    }
}
