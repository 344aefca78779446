//! No-reach: hosts that a host must not reach, on any path.

ghost use Rattle.std.specs.Prelude.{◌≡◌, ◌≢◌, ◌<◌, ◌≤◌, IfOk, false, length, slice_set};
ghost use Rattle.std.specs.FinSet as set;
ghost use Rattle.std.proofs.lemmas.Bool.{false≢true};
ghost use Rattle.inv_law.specs.declared.strategy.Strategy.TheVariants.{Access};
ghost use Rattle.tmpl_reach.specs.NoReach.{others, denied_by, ReachesNoDenied};
ghost use Rattle.tmpl_reach.specs.inner.NoReach.{ReachesNone};
ghost use Rattle.tmpl_reach.specs.inner.Resets.{all_others, ReachesNoDeniedAfterReset};
ghost use Rattle.tmpl_reach.specs.inner.Trials.{FitsReach};
ghost use Rattle.tmpl_reach.specs.laws.NoReachLaws.{ReachesNoDenied-downward, ReachesNoDenied-none, ReachesNoDenied-reset};

use crate::host_wise::{HostWise, all_allowed, still_allowed};
use crate::trial::{Half, ReachTrial};
use flow_set::{Flow, FlowSet, HostSet};
use inv_law::{Invariant, Stepwise, Strategy};
use reach_core::ReachClosure;
use std::alloc::{AllocError, Global};
use std::marker::Model;

/// Forbids each host to reach the hosts that it denies.
#[derive(Drop)]
pub struct NoReach {
    denied: Vec<HostSet>,
}

impl Model for NoReach {
    ghost use Rattle.std.specs.Prelude.{List};
    ghost use Rattle.std.specs.Coded.{coded_list, coded_ℕ};
    ghost use Rattle.std.specs.FinSet as set;
    ghost use Rattle.flow_set.specs.HostSet.{HostNumbers};
    ghost use Rattle.tmpl_reach.specs.inner.NoReachView.{DenyOthers};

    ghost Value = { List HostNumbers };

    ghost coded = { coded_list (set.code coded_ℕ) };

    ghost view = { λ x. x.denied.items };

    ghost invariant = { λ x. DenyOthers x.denied.items };
}

impl NoReach {
    /// Returns the invariant of `n` hosts that each deny all others. A set of flows has at most 256
    /// hosts.
    pub fn new(alloc: Global, n: u16) -> Result<Self, AllocError>
        requires { n ≤ 256 }
        ensures { IfOk result (λ x. x ≡ all_others n) }
    {
        let mut denied = Vec::with_capacity(alloc, n as usize)?;
        for host in 0..n {
            denied.push(others(n, host))?;
        }
        Ok(NoReach { denied })
    }

    /// Lets the host reach all others.
    pub fn clear(&mut self, host: u16)
        requires { host < length self.old }
        ensures { self.new ≡ slice_set self.old host set.empty }
    {
        self.denied[host as usize] = HostSet::empty();
    }

    /// Adds a host that the host must not reach.
    pub fn deny(&mut self, host: u16, other: u16)
        requires host { host < length self.old }
        requires other { other < length self.old }
        requires apart { host ≢ other }
        ensures { self.new ≡ slice_set self.old host (set.insert (denied_by self.old host) other) }
    {
        let denied = &mut self.denied[host as usize];
        denied.insert(other);
    }

    fn denies(&self, host: u16, other: u16) -> bool
        requires host { host < length self.now }
        requires other { other < length self.now }
        ensures { result ≡ set.contains (denied_by self.now host) other }
    {
        self.denied[host as usize].has(other)
    }
}

impl HostWise for NoReach {
    ghost hosts_of = { λ denied. length denied };

    ghost allows_on = { λ denied e host. ReachesNone (denied_by denied host) e host };

    fn allows(&self, host: u16, reached: &HostSet) -> bool {
        let denied = &self.denied[host as usize];
        let mut others = reached.copy();
        others.remove(host);
        others.is_apart(denied)
    }

    ghost allows_none = { ReachesNoDenied-none };

    ghost allows_fewer = { λ denied s e host fewer none j apart denies reaches. none j apart denies (fewer j reaches) };
}

impl Invariant for NoReach {
    ghost size_of = { λ denied. length denied };

    ghost strategy_of = { λ _. Access };

    ghost edge_mark = { λ _. false };

    ghost holds_on = { ReachesNoDenied };

    ghost holds_after_reset = { ReachesNoDeniedAfterReset };

    ghost reset_gives = { λ denied host new. new ≡ slice_set denied host (others (length denied) host) };

    fn strategy(&self) -> Strategy {
        Strategy::Access
    }

    fn edge_wise(&self) -> bool {
        false
    }

    fn hosts(&self) -> u16 {
        self.denied.len() as u16
    }

    fn admits(&self, f: Flow) -> bool {
        !self.denies(f.from, f.to)
    }

    fn holds(&self, alloc: Global, e: &FlowSet) -> Result<bool, AllocError> {
        let closure = ReachClosure::of(alloc, e)?;
        Ok(all_allowed(self, &closure))
    }

    fn with_default(&self, alloc: Global, host: u16) -> Result<Self, AllocError> {
        let mut denied = HostSet::copies(alloc, &self.denied)?;
        denied[host as usize] = others(self.hosts(), host);
        Ok(NoReach { denied })
    }

    ghost downward = { λ denied. ReachesNoDenied-downward (length denied) denied };

    ghost holds_on_none = { ReachesNoDenied-none };

    ghost reset_preserves_violation = { ReachesNoDenied-reset };

    ghost mark_is_right = { λ _ marked. absurd (false≢true marked) };
}

impl Stepwise for NoReach {
    type Tried = ReachTrial;

    ghost fits = { λ x tried. FitsReach (length x) tried.half };

    fn trial(&self, alloc: Global, e: &FlowSet) -> Result<ReachTrial, AllocError> {
        Ok(ReachTrial {
            half: Half::Reach(ReachClosure::of(alloc, e)?),
        })
    }

    fn step(&self, tried: &mut ReachTrial, f: Flow) -> bool {
        match &mut tried.half {
            Half::Reach(closure) => {
                let holds = still_allowed(self, closure, f);
                closure.try_add(f);
                holds
            }
            _ => false,
        }
    }

    fn back(&self, tried: &mut ReachTrial) {
        match &mut tried.half {
            Half::Reach(closure) => closure.undo(),
            _ => (),
        }
    }

    fn holds_with(&self, tried: &mut ReachTrial, f: Flow) -> bool {
        match &mut tried.half {
            Half::Reach(closure) => {
                closure.forget();
                still_allowed(self, closure, f)
            }
            _ => false,
        }
    }

    ghost fits_size = { λ x tried fits. fits.size };
}

// Returns all hosts below `n` except this one.
fn others(n: u16, host: u16) -> HostSet
    requires count { n ≤ 256 }
    requires host { host < 256 }
    ensures { result ≡ others n host }
{
    let mut hosts = HostSet::below(n);
    hosts.remove(host);
    hosts
}
