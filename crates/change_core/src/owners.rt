//! The owners of addresses under two descriptions, and which of them own the same addresses.

ghost use Rattle.std.specs.Prelude.{IfOk};
ghost use Rattle.change_core.specs.inner.Candidates.{AreOwners};

use crate::named::all_named;
use crate::sharing::shared_owners;
use header_space::Owned;
use host_net::Hosts;
use std::alloc::{AllocError, Global};

/// The owners of addresses under a new and an old description.
#[derive(Drop)]
pub(crate) struct Owners {
    /// All owners in their order, with the ranges of their addresses.
    pub(crate) named: Vec<Owned>,
    /// For each host of the new description, the owners of its addresses under the old description.
    pub(crate) rows: Vec<Vec<Option<u16>>>,
}

impl Owners {
    /// Returns the owners under a new and an old description.
    pub(crate) fn of(alloc: Global, new: &Hosts, old: &Hosts) -> Result<Owners, AllocError>
        ensures { IfOk result (AreOwners new.now old.now) }
    {
        let named = all_named(alloc, new, old)?;
        let rows = shared_owners(alloc, new, old)?;
        Ok(Owners { named, rows })
    }
}
