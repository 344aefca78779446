//! The results of an invariant, called through its trait.

ghost use Rattle.std.specs.Prelude.{◌<◌};
ghost use Rattle.flow_set.specs.Flow.{IsFlow};

use flow_set::Flow;
use inv_law::Invariant;
use std::alloc::{AllocError, Global};

/// Returns whether the flow is admitted, and whether it is after the reset of the host.
pub(crate) fn before_and_after<I: Invariant + Drop>(
    alloc: Global,
    inv: &I,
    host: u16,
    f: Flow,
) -> Result<(bool, bool), AllocError>
    requires host { host < I.size_of inv.now }
    requires flow { IsFlow (I.size_of inv.now) f }
{
    let reset = inv.with_default(alloc, host)?;
    Ok((inv.admits(f), reset.admits(f)))
}
