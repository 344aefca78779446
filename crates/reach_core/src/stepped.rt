//! Rows that grow in steps, and store the previous contents of the rows that the last step changed.
//! So a step and its undo cost only what they change.

ghost use Rattle.std.specs.Prelude.{◌≡◌, ◌<◌, ◌≤◌, length, replicate, IfOk};
ghost use Rattle.std.specs.FinSet as set;
ghost use Rattle.flow_set.specs.inner.HostSet.{row_of};
ghost use Rattle.reach_core.specs.inner.Rows.{AreBelow, FitsRows, IsWidened, IsBack};

use crate::rows::Rows;
use flow_set::HostSet;
use std::alloc::{AllocError, Global};

// The rows of a closure that grows in steps.
#[derive(Drop)]
pub struct UndoableRows {
    rows: Rows,
    // The rows of the changed hosts before the last step. Its other rows are unused space.
    before: Rows,
    changed: HostSet,
}

impl UndoableRows {
    // Returns empty rows, before any step.
    pub fn new(alloc: Global, size: u16) -> Result<UndoableRows, AllocError>
        ensures { IfOk result (λ new. new ≡ record { rows = replicate size set.empty; before = replicate size set.empty; changed = set.empty }) }
    {
        Ok(UndoableRows {
            rows: Rows::new(alloc, size)?,
            before: Rows::new(alloc, size)?,
            changed: HostSet::empty(),
        })
    }

    pub fn row(&self, host: u16) -> &HostSet
        requires { host < length self.now.rows }
        ensures { result.now ≡ row_of self.now.rows host }
    {
        self.rows.row(host)
    }

    // Makes a step that changes nothing.
    pub fn keep(&mut self)
        ensures { self.new ≡ record self.old { changed = set.empty } }
    {
        self.changed = HostSet::empty();
    }

    // Makes a step that inserts the hosts of `by` into the rows of `hosts`.
    pub fn union_into(&mut self, hosts: &HostSet, by: &HostSet)
        requires room { length self.old.before ≡ length self.old.rows }
        requires small { length self.old.rows ≤ 256 }
        requires below { AreBelow hosts.now (length self.old.rows) }
        ensures rows { IsWidened self.old.rows self.new.rows self.new.before hosts.now by.now }
        ensures changed { self.new.changed ≡ hosts.now }
    {
        let mut from = 0;
        while let Some(host) = hosts.first_from(from) {
            let mut row = self.rows.row(host).copy();
            self.before.put(host, row.copy());
            row.insert_all(by);
            self.rows.put(host, row);
            from = host + 1;
        }
        self.changed = hosts.copy();
    }

    // Undoes the last step.
    pub fn back(&mut self)
        requires { FitsRows self.old (length self.old.rows) }
        ensures rows { IsBack self.old self.new.rows }
        ensures before { self.new.before ≡ self.old.before }
        ensures changed { self.new.changed ≡ set.empty }
    {
        let changed = self.changed.copy();
        let mut from = 0;
        while let Some(host) = changed.first_from(from) {
            let row = self.before.row(host).copy();
            self.rows.put(host, row);
            from = host + 1;
        }
        self.changed = HostSet::empty();
    }
}
