//! Dependability: a bound on the number of other hosts that a host depends on. A host depends on
//! the hosts that it reaches along the flows, and never on itself.

ghost use Rattle.std.specs.Prelude.{◌≡◌, ◌<◌, IfOk, false, length, replicate, slice_index, slice_set};
ghost use Rattle.std.proofs.lemmas.Bool.{false≢true};
ghost use Rattle.inv_law.specs.declared.strategy.Strategy.TheVariants.{Access};
ghost use Rattle.reach_core.specs.Walks.{ReachesAtMost};
ghost use Rattle.reach_core.specs.laws.ReachLaws.{ReachesAtMost-as_before};
ghost use Rattle.tmpl_reach.specs.Dependability.{IsDependable};
ghost use Rattle.tmpl_reach.specs.inner.Resets.{IsDependableAfterReset};
ghost use Rattle.tmpl_reach.specs.inner.Trials.{FitsReach};
ghost use Rattle.tmpl_reach.specs.laws.DependabilityLaws.{IsDependable-downward, IsDependable-none, IsDependable-reset};

use crate::host_wise::{HostWise, all_allowed, still_allowed};
use crate::trial::{Half, ReachTrial};
use flow_set::{Flow, FlowSet, HostSet};
use inv_law::{Invariant, Stepwise, Strategy};
use reach_core::ReachClosure;
use std::alloc::{AllocError, Global};
use std::marker::Model;

/// Bounds the number of other hosts that each host reaches.
#[derive(Drop)]
pub struct Dependability {
    limits: Vec<u16>,
}

impl Model for Dependability {
    ghost use Rattle.std.specs.Prelude.{List, ℕ, length, ◌<◌, ◌^◌};

    ghost Value = { List ℕ };

    ghost view = { λ x. x.limits.items };

    ghost invariant = { λ x. length x.limits.items < 2 ^ 16 };
}

impl Dependability {
    /// Returns the invariant of `n` hosts with limit 0.
    pub fn new(alloc: Global, n: u16) -> Result<Self, AllocError>
        ensures { IfOk result (λ x. x ≡ replicate n 0) }
    {
        let mut limits = Vec::new(alloc);
        limits.resize(n as usize, 0)?;
        Ok(Dependability { limits })
    }

    /// Sets the number of other hosts that the host may reach.
    pub fn set(&mut self, host: u16, limit: u16)
        requires { host < length self.old }
        ensures { self.new ≡ slice_set self.old host limit }
    {
        self.limits[host as usize] = limit;
    }
}

impl HostWise for Dependability {
    ghost hosts_of = { λ limits. length limits };

    ghost allows_on = { λ limits e host. host < length limits → ReachesAtMost e host (slice_index limits host) };

    fn allows(&self, host: u16, reached: &HostSet) -> bool {
        let mut others = reached.copy();
        others.remove(host);
        others.len() <= self.limits[host as usize]
    }

    ghost allows_none = { IsDependable-none };

    ghost allows_fewer = { λ limits s e host fewer most below. ReachesAtMost-as_before s e host (slice_index limits host) fewer (most below) };
}

impl Invariant for Dependability {
    ghost size_of = { λ limits. length limits };

    ghost strategy_of = { λ _. Access };

    ghost edge_mark = { λ _. false };

    ghost holds_on = { IsDependable };

    ghost holds_after_reset = { IsDependableAfterReset };

    ghost reset_gives = { λ limits host new. new ≡ slice_set limits host 0 };

    fn strategy(&self) -> Strategy {
        Strategy::Access
    }

    fn edge_wise(&self) -> bool {
        false
    }

    fn hosts(&self) -> u16 {
        self.limits.len() as u16
    }

    fn admits(&self, f: Flow) -> bool {
        self.limits[f.from as usize] > 0
    }

    fn holds(&self, alloc: Global, e: &FlowSet) -> Result<bool, AllocError> {
        let closure = ReachClosure::of(alloc, e)?;
        Ok(all_allowed(self, &closure))
    }

    fn with_default(&self, alloc: Global, host: u16) -> Result<Self, AllocError> {
        let mut limits = Vec::from_slice(alloc, &self.limits)?;
        limits[host as usize] = 0;
        Ok(Dependability { limits })
    }

    ghost downward = { λ limits. IsDependable-downward (length limits) limits };

    ghost holds_on_none = { IsDependable-none };

    ghost reset_preserves_violation = { IsDependable-reset };

    ghost mark_is_right = { λ _ marked. absurd (false≢true marked) };
}

impl Stepwise for Dependability {
    type Tried = ReachTrial;

    ghost fits = { λ x tried. FitsReach (length x) tried.half };

    fn trial(&self, alloc: Global, e: &FlowSet) -> Result<ReachTrial, AllocError> {
        Ok(ReachTrial {
            half: Half::Reach(ReachClosure::of(alloc, e)?),
        })
    }

    fn step(&self, tried: &mut ReachTrial, f: Flow) -> bool {
        match &mut tried.half {
            Half::Reach(closure) => {
                let holds = still_allowed(self, closure, f);
                closure.try_add(f);
                holds
            }
            _ => false,
        }
    }

    fn back(&self, tried: &mut ReachTrial) {
        match &mut tried.half {
            Half::Reach(closure) => closure.undo(),
            _ => (),
        }
    }

    fn holds_with(&self, tried: &mut ReachTrial, f: Flow) -> bool {
        match &mut tried.half {
            Half::Reach(closure) => {
                closure.forget();
                still_allowed(self, closure, f)
            }
            _ => false,
        }
    }

    ghost fits_size = { λ x tried fits. fits.size };
}
