//! One row of hosts for each host.

ghost use Rattle.std.specs.Prelude.{◌≡◌, ◌<◌, length, replicate, slice_set, IfOk};
ghost use Rattle.std.specs.FinSet as set;
ghost use Rattle.flow_set.specs.inner.HostSet.{row_of};

use flow_set::HostSet;
use std::alloc::{AllocError, Global};
use std::marker::Model;

// A set of hosts for each host.
#[derive(Drop)]
pub struct Rows {
    rows: Vec<HostSet>,
}

impl Model for Rows {
    ghost use Rattle.std.specs.Prelude.{List};
    ghost use Rattle.std.specs.Coded.{coded_list, coded_ℕ};
    ghost use Rattle.std.specs.FinSet as set;
    ghost use Rattle.flow_set.specs.HostSet.{HostNumbers};

    ghost Value = { List HostNumbers };

    ghost coded = { coded_list (set.code coded_ℕ) };

    ghost view = { λ r. r.rows.items };
}

impl Rows {
    // Returns the empty rows of `size` hosts.
    pub fn new(alloc: Global, size: u16) -> Result<Rows, AllocError>
        ensures { IfOk result (λ rows. rows ≡ replicate size set.empty) }
    {
        let mut rows = Vec::with_capacity(alloc, size as usize)?;
        for _ in 0..size {
            rows.push(HostSet::empty())?;
        }
        Ok(Rows { rows })
    }

    pub fn row(&self, host: u16) -> &HostSet
        requires { host < length self.now }
        ensures { result.now ≡ row_of self.now host }
    {
        &self.rows[host as usize]
    }

    pub fn put(&mut self, host: u16, row: HostSet)
        requires { host < length self.old }
        ensures { self.new ≡ slice_set self.old host row }
    {
        self.rows[host as usize] = row;
    }
}
