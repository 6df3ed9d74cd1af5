//! Why a descriptor or a row is not read.

use std::alloc::{AllocError, AllocFailed};
use thiserror::Error;

/// Why a descriptor or a row is not read.
#[derive(Clone, Copy, Debug, Drop, PartialEq, Eq, Error)]
pub enum DescriptorFault {
    /// The bytes are no descriptor, or no row of it.
    #[error("no descriptor, or no row of it")]
    Malformed,
    /// The descriptor, if it is one, has more than 128 fields.
    #[error("more than 128 fields")]
    TooManyFields,
    /// Memory was refused.
    #[error("out of memory")]
    NoMemory,
}

impl From<AllocError> for DescriptorFault {
    ghost use Rattle.std.specs.Prelude.{◌≡◌};
    ghost use Rattle.fdoca.specs.declared.fault.DescriptorFault.TheVariants.{NoMemory};

    ghost from_gives = { λ _ error. error ≡ NoMemory };

    fn from(_error: AllocError) -> DescriptorFault {
        DescriptorFault::NoMemory
    }
}

impl<T: Drop> From<AllocFailed<T>> for DescriptorFault {
    ghost use Rattle.std.specs.Prelude.{◌≡◌};
    ghost use Rattle.fdoca.specs.declared.fault.DescriptorFault.TheVariants.{NoMemory};

    ghost from_gives = { λ _ error. error ≡ NoMemory };

    fn from(_error: AllocFailed<T>) -> DescriptorFault {
        DescriptorFault::NoMemory
    }
}
