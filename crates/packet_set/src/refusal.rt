//! Why a set is not built.

use std::alloc::{AllocError, AllocFailed};

/// Why a set is not built.
#[derive(Clone, Copy, Debug, PartialEq, Eq)]
pub enum SetRefusal {
    /// The diagrams have `NODE_LIMIT` nodes, and the set needs another node.
    TooManyNodes,
    /// Out of memory.
    Memory,
}

impl From<AllocError> for SetRefusal {
    ghost use Rattle.std.specs.Prelude.{◌≡◌};
    ghost use Rattle.packet_set.specs.declared.refusal.SetRefusal.TheVariants.{Memory};

    ghost from_gives = { λ _ why. why ≡ Memory };

    fn from(_: AllocError) -> SetRefusal {
        SetRefusal::Memory
    }
}

impl<T: Drop> From<AllocFailed<T>> for SetRefusal {
    ghost use Rattle.std.specs.Prelude.{◌≡◌};
    ghost use Rattle.packet_set.specs.declared.refusal.SetRefusal.TheVariants.{Memory};

    ghost from_gives = { λ _ why. why ≡ Memory };

    fn from(_: AllocFailed<T>) -> SetRefusal {
        SetRefusal::Memory
    }
}
