//! A growing list of entries. The entries are stored while their number is within the limit of a
//! table; all are counted.

ghost use Rattle.std.specs.Prelude.{◌≡◌, OnOk};
ghost use Rattle.emit_core.specs.inner.KeptEntries.{no_entries, with_entry};

use ofp_rules::{ENTRY_LIMIT, Entry};
use std::alloc::{AllocError, Global};
use std::marker::Model;

/// Entries in order: stored up to the limit of a table, and counted.
#[derive(Drop)]
pub(crate) struct Entries {
    kept: Vec<Entry>,
    count: u32,
}

impl Model for Entries {
    ghost use Rattle.emit_core.specs.inner.KeptEntries.{KeptEntries};

    ghost Value = { KeptEntries };

    ghost view = { λ e. record { kept = e.kept.items; count = e.count } };
}

impl Entries {
    pub(crate) fn new(alloc: Global) -> Entries
        ensures { result ≡ no_entries }
    {
        Entries {
            kept: Vec::new(alloc),
            count: 0,
        }
    }

    /// Adds an entry. Fails with an allocation error if the count overflows; no layout has that
    /// many entries.
    pub(crate) fn push(&mut self, entry: Entry) -> Result<(), AllocError>
        ensures { OnOk result (self.new ≡ with_entry self.old entry) }
    {
        let count = self.count.checked_add(1).ok_or(AllocError)?;
        if self.count < ENTRY_LIMIT {
            self.kept.push(entry)?;
        }
        self.count = count;
        Ok(())
    }

    /// Returns the number of entries that were added.
    pub(crate) fn count(&self) -> u32
        ensures { result ≡ self.now.count }
    {
        self.count
    }

    /// Returns the stored entries.
    pub(crate) fn into_kept(self) -> Vec<Entry>
        ensures { result.items ≡ self.kept }
    {
        self.kept
    }
}
