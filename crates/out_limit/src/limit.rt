//! The template.

ghost use Rattle.std.specs.Prelude.{◌≡◌, ◌<◌, ◌↔◌, false, IsTrue, IfOk, length, replicate, slice_set};
ghost use Rattle.std.proofs.lemmas.Bool.{false≢true};
ghost use Rattle.inv_law.specs.declared.strategy.Strategy.TheVariants.{Access};
ghost use Rattle.out_limit.specs.inner.OutLimit.{sent_by, KeepsLimits};
ghost use Rattle.out_limit.specs.laws.OutLimitLaws.{KeepsLimits-downward, KeepsLimits-nothing, KeepsLimits-reset};

use flow_set::{Flow, FlowSet};
use inv_law::{Invariant, Strategy};
use std::alloc::{AllocError, Global};
use std::marker::Model;

/// Bounds the number of flows that each host sends. The default bound is 0.
#[derive(Drop)]
pub struct OutLimit {
    limits: Vec<u16>,
}

impl Model for OutLimit {
    ghost use Rattle.std.specs.Prelude.{List, ℕ, length, ◌<◌, ◌^◌};

    ghost Value = { List ℕ };

    ghost view = { λ template. template.limits.items };

    ghost invariant = { λ template. length template.limits.items < 2 ^ 16 };
}

impl OutLimit {
    /// Returns the template for `n` hosts, none of which may send.
    pub fn new(alloc: Global, n: u16) -> Result<Self, AllocError>
        ensures { IfOk result (λ template. template ≡ replicate n 0) }
    {
        let mut limits = Vec::new(alloc);
        limits.resize(n as usize, 0)?;
        Ok(OutLimit { limits })
    }

    /// Sets the bound of the host.
    pub fn set(&mut self, host: u16, limit: u16)
        requires { host < length self.old }
        ensures { self.new ≡ slice_set self.old host limit }
    {
        self.limits[host as usize] = limit;
    }
}

impl Invariant for OutLimit {
    ghost size_of = { λ limits. length limits };

    ghost strategy_of = { λ _. Access };

    ghost edge_mark = { λ _. false };

    ghost holds_on = { KeepsLimits };

    ghost holds_after_reset = { λ limits host. KeepsLimits (slice_set limits host 0) };

    ghost reset_gives = { λ limits host new. new ≡ slice_set limits host 0 };

    fn strategy(&self) -> Strategy {
        Strategy::Access
    }

    fn edge_wise(&self) -> bool {
        false
    }

    fn hosts(&self) -> u16 {
        self.limits.len() as u16
    }

    fn admits(&self, f: Flow) -> bool {
        self.limits[f.from as usize] > 0
    }

    fn holds(&self, _alloc: Global, e: &FlowSet) -> Result<bool, AllocError> {
        Ok(keeps(&self.limits, e))
    }

    fn with_default(&self, alloc: Global, host: u16) -> Result<Self, AllocError> {
        let mut limits = Vec::from_slice(alloc, &self.limits)?;
        limits[host as usize] = 0;
        Ok(OutLimit { limits })
    }

    ghost downward = { λ limits. KeepsLimits-downward (length limits) limits };

    ghost holds_on_none = { KeepsLimits-nothing };

    ghost reset_preserves_violation = { KeepsLimits-reset };

    ghost mark_is_right = { λ _ marked. absurd (false≢true marked) };
}

fn keeps(limits: &[u16], e: &FlowSet) -> bool
    ensures { IsTrue result ↔ KeepsLimits limits.now e.now.flows }
{
    for (host, limit) in limits.iter().enumerate() {
        if sent(e, host) > *limit as usize {
            return false;
        }
    }
    true
}

// Returns the number of flows that the host sends.
fn sent(e: &FlowSet, host: usize) -> usize
    ensures { result ≡ length (sent_by host e.now.flows) }
{
    e.iter().filter(|f| f.from as usize == host).count()
}
