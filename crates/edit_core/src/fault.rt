//! The reasons why an edit is refused.

ghost use Rattle.std.specs.Prelude.{◌≡◌};
ghost use Rattle.edit_core.specs.inner.EditFaults.{cause_of, edit_fault};
ghost use Rattle.edit_core.specs.declared.fault.ChangeFault.TheVariants.{Memory};

use desc_core::{DescFault, Why};
use std::alloc::{AllocError, AllocFailed};

/// The reason why an edit is refused.
#[derive(Clone, Copy, Debug, PartialEq, Eq)]
pub enum EditWhy {
    /// The description lists no flows.
    NoPolicy,
    /// There is no such invariant, or nothing to remove.
    Absent,
    /// The edited table is not a description.
    Refused(Why),
}

/// The reason why `Session::apply` fails. The table is unchanged.
#[derive(Clone, Copy, Debug, PartialEq, Eq)]
pub enum EditFault {
    /// The description lists no flows.
    NoPolicy,
    /// There is no such invariant, or nothing to remove.
    Absent,
    /// The edited table is not a description.
    Refused(Why),
    /// Memory allocation failed.
    Memory,
}

impl EditFault {
    pub(crate) fn of(fault: ChangeFault) -> EditFault
        ensures { cause_of result ≡ fault }
    {
        match fault {
            ChangeFault::Refused(EditWhy::NoPolicy) => EditFault::NoPolicy,
            ChangeFault::Refused(EditWhy::Absent) => EditFault::Absent,
            ChangeFault::Refused(EditWhy::Refused(why)) => EditFault::Refused(why),
            ChangeFault::Memory => EditFault::Memory,
        }
    }
}

/// The reason why a change of the table fails, with the reason of a refusal as one value.
#[derive(Clone, Copy, Debug)]
pub enum ChangeFault {
    /// The edit is refused.
    Refused(EditWhy),
    /// Memory allocation failed.
    Memory,
}

impl From<DescFault> for ChangeFault {
    ghost from_gives = { λ fault given. given ≡ edit_fault fault };

    fn from(fault: DescFault) -> ChangeFault {
        match fault {
            DescFault::Refused(refusal) => ChangeFault::Refused(EditWhy::Refused(refusal.why)),
            DescFault::Memory => ChangeFault::Memory,
        }
    }
}

impl From<AllocError> for ChangeFault {
    ghost from_gives = { λ _ fault. fault ≡ Memory };

    fn from(_: AllocError) -> ChangeFault {
        ChangeFault::Memory
    }
}

impl<T: Drop> From<AllocFailed<T>> for ChangeFault {
    ghost from_gives = { λ _ fault. fault ≡ Memory };

    fn from(_: AllocFailed<T>) -> ChangeFault {
        ChangeFault::Memory
    }
}
