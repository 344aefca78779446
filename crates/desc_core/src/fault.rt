//! The reasons why a description is not accepted.

ghost use Rattle.std.specs.Prelude.{◌≡◌};
ghost use Rattle.desc_core.specs.declared.fault.DescFault.TheVariants.{Memory};

use desc_form::Refusal;
use std::alloc::{AllocError, AllocFailed};

/// The greatest size of a description, in bytes.
pub const BYTE_LIMIT: usize = 1_048_576;

/// The reason why a description is not accepted.
#[derive(Clone, Copy, Debug)]
pub enum DescFault {
    /// The description is refused, for the first of the conditions that apply.
    Refused(Refusal),
    /// Memory allocation failed.
    Memory,
}

impl From<AllocError> for DescFault {
    ghost from_gives = { λ _ fault. fault ≡ Memory };

    fn from(_: AllocError) -> DescFault {
        DescFault::Memory
    }
}

impl<T: Drop> From<AllocFailed<T>> for DescFault {
    ghost from_gives = { λ _ fault. fault ≡ Memory };

    fn from(_: AllocFailed<T>) -> DescFault {
        DescFault::Memory
    }
}
