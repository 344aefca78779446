//! Planned faults for the objects in memory: their calls are numbered from 1, and the calls with
//! given numbers fail. Numbers and faults are saturating 64-bit counts.
ghost use Rattle.std.specs.Prelude.{◌≡◌, ◌==◌, ◌≤◌, is_err, OnOk};
ghost use Rattle.std.specs.List.{list_any};

use crate::Failed;
use std::marker::Model;

#[derive(Drop)]
pub(crate) struct FaultPlan {
    fails: Vec<u32>,
    calls: u64,
    faults: u64,
}

impl Model for FaultPlan {
    ghost use Rattle.edge_io.specs.inner.FaultPlan.{Plan};

    ghost Value = { Plan };

    ghost view = { λ plan. record { fails = plan.fails.items; calls = plan.calls; faults = plan.faults } };
}

impl FaultPlan {
    ghost use Rattle.edge_io.specs.inner.FaultPlan.{fresh, fails_next, after_call, with_fault};

    /// Returns a plan before the first call, with the numbers of the calls that fail.
    pub(crate) fn new(fails: Vec<u32>) -> FaultPlan
        ensures { result ≡ fresh fails.items }
    {
        FaultPlan {
            fails,
            calls: 0,
            faults: 0,
        }
    }

    /// Numbers a call, and fails if its number is listed.
    pub(crate) fn count_call(&mut self) -> Result<(), Failed>
        ensures answer { is_err result ≡ fails_next self.old }
        ensures after { self.new ≡ after_call self.old }
        ensures no_fault { OnOk result (self.new.faults ≡ self.old.faults) }
        ensures faults_monotone { self.old.faults ≤ self.new.faults }
    {
        self.calls = self.calls.saturating_add(1);
        if is_listed(self.calls, &self.fails) {
            self.count_fault();
            return Err(Failed);
        }
        Ok(())
    }

    /// Counts a fault that was not planned by its number.
    pub(crate) fn count_fault(&mut self)
        ensures after { self.new ≡ with_fault self.old }
        ensures faults_monotone { self.old.faults ≤ self.new.faults }
    {
        self.faults = self.faults.saturating_add(1);
    }
}

fn is_listed(number: u64, fails: &[u32]) -> bool
    ensures { result ≡ list_any (λ fail. fail == number) fails.now }
{
    fails.iter().any(|&fail| u64::from(fail) == number)
}
