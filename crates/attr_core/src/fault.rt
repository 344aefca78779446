//! The reasons why an invariant is not made.
ghost use Rattle.std.specs.Prelude.{◌≡◌};
ghost use Rattle.attr_core.specs.declared.fault.AttrFault.TheVariants.{Memory};

use std::alloc::AllocError;

/// The reason why an invariant is not made of its assigns.
#[derive(Clone, Copy, PartialEq, Eq, Debug)]
pub enum AttrFault {
    /// The table of an assign specifies no attribute of the template. `assign` is the number of the
    /// first such assign, from 0.
    BadAttribute { assign: usize },
    /// Memory allocation failed.
    Memory,
}

impl From<AllocError> for AttrFault {
    ghost from_gives = { λ _ fault. fault ≡ Memory };

    fn from(_: AllocError) -> AttrFault {
        AttrFault::Memory
    }
}
