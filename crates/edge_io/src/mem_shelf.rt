//! A shelf in memory, for tests and for runs on given files. All its files are observable, and
//! calls with given numbers fail.
ghost use Rattle.std.specs.Prelude.{◌≡◌, Some, OnOk, OnErr};

use crate::begun::{Begun, bytes_left, move_front};
use crate::fault_plan::FaultPlan;
use crate::stored_files::{StoredFile, place_of, put_file};
use crate::{Failed, Shelf};
use std::alloc::{AllocError, Global};
use std::marker::Model;

/// Named files in memory. A missing name is not a fault: `begin` fails and counts none.
#[derive(Drop)]
pub struct MemShelf {
    alloc: Global,
    stored: Vec<StoredFile>,
    begun: Option<Begun>,
    taken: u64,
    begins: u64,
    plan: FaultPlan,
}

impl Model for MemShelf {
    ghost use Rattle.std.specs.Prelude.{is_some};
    ghost use Rattle.edge_io.specs.inner.MemShelf.{Shelved};
    ghost use Rattle.edge_io.specs.inner.MemShelfCode.{shelved_code};

    ghost Value = { Shelved };

    ghost coded = { shelved_code };

    ghost use Rattle.edge_io.specs.inner.StoredFiles.{files_in};
    ghost use Rattle.edge_io.specs.inner.Begun.{bytes_left, IsWithin};

    ghost view = { λ s. record {
      files = files_in s.stored.items;
      begun = is_some s.begun;
      left = bytes_left s.stored.items s.begun;
      taken = s.taken;
      begins = s.begins;
      plan = s.plan;
    } };

    ghost invariant = { λ s. IsWithin s.stored.items s.begun };
}

impl MemShelf {
    ghost use Rattle.edge_io.specs.Failures.{ShelfCountsOnlyFailures};
    ghost use Rattle.edge_io.specs.inner.MemShelf.{fresh_shelf, with_file};

    /// Returns a shelf without files. `fails` has the numbers of the calls of `begin` and `read`
    /// that fail; the first call has number 1.
    pub fn new(alloc: Global, fails: Vec<u32>) -> MemShelf
        ensures fresh { result ≡ fresh_shelf fails.items }
        ensures counts { ShelfCountsOnlyFailures ⟦<MemShelf as Shelf>⟧ }
    {
        MemShelf {
            alloc,
            stored: Vec::new(alloc),
            begun: None,
            taken: 0,
            begins: 0,
            plan: FaultPlan::new(fails),
        }
    }

    /// Puts a file on the shelf, and replaces an existing file with the name.
    pub fn put(&mut self, name: &str, bytes: &[u8]) -> Result<(), AllocError>
        ensures ok { OnOk result (self.new ≡ with_file self.old name.now bytes.now) }
        ensures err { OnErr result (self.new ≡ self.old) }
    {
        put_file(self.alloc, &mut self.stored, name, bytes)?;
        self.begun = None;
        Ok(())
    }
}

impl Shelf for MemShelf {
    ghost use Rattle.std.specs.Prelude.{refl};
    ghost use Rattle.edge_io.specs.inner.MemShelf.{Begins, Reads};

    ghost files = { λ s. Some s.files };

    ghost left = { λ s. Some s.left };

    ghost begun = { λ s. s.begun };

    ghost taken = { λ s. s.taken };

    ghost begins = { λ s. s.begins };

    ghost faults = { λ s. s.plan.faults };

    ghost begin_gives = { λ old name result new. Begins old name result new };

    ghost read_gives = { λ old into result new. Reads old into result new };

    ghost both_observable = { λ s. refl };

    fn begin(&mut self, name: &str) -> Result<(), Failed> {
        self.begins = self.begins.saturating_add(1);
        self.taken = 0;
        self.begun = None;
        self.plan.count_call()?;
        let Some(place) = place_of(&self.stored, name) else {
            return Err(Failed);
        };
        self.begun = Some(Begun { place, done: 0 });
        Ok(())
    }

    fn read(&mut self, into: &mut [u8]) -> Result<usize, Failed> {
        self.plan.count_call()?;
        let begun = self.begun.unwrap();
        let count = move_front(bytes_left(&self.stored, begun), into);
        self.begun = Some(Begun {
            place: begun.place,
            done: begun.done + count,
        });
        self.taken = self.taken.saturating_add(count as u64);
        Ok(count)
    }
}
