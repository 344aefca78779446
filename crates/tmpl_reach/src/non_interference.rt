//! Non-interference: hosts that must not learn of each other. Two hosts are joined by any walk
//! between them, regardless of the direction of its flows.

ghost use Rattle.std.specs.Prelude.{◌≡◌, ◌≢◌, ℕ, ◌<◌, ◌≤◌, ◌↔◌, IfOk, IsTrue, MatchOption, false, length, replicate, slice_set};
ghost use Rattle.std.specs.FinSet as set;
ghost use Rattle.std.proofs.lemmas.Bool.{false≢true};
ghost use Rattle.flow_set.specs.Flow.{IsFlow};
ghost use Rattle.flow_set.specs.FlowSet.{with_flow};
ghost use Rattle.inv_law.specs.declared.strategy.Strategy.TheVariants.{Information};
ghost use Rattle.reach_core.specs.Walks.{Joined};
ghost use Rattle.tmpl_reach.specs.inner.EachOf.{EachOf};
ghost use Rattle.tmpl_reach.specs.inner.Interferences.{HasOneAtMost, NoneInterferes, IsNextInterfering};
ghost use Rattle.tmpl_reach.specs.NonInterference.{IsInterfering, IsNonInterfering};
ghost use Rattle.tmpl_reach.specs.inner.Resets.{IsNonInterferingAfterReset};
ghost use Rattle.tmpl_reach.specs.inner.Trials.{FitsJoin};
ghost use Rattle.tmpl_reach.specs.laws.NonInterferenceLaws.{IsNonInterfering-downward, IsNonInterfering-none, IsNonInterfering-reset};
ghost use Rattle.tmpl_reach.specs.declared.non_interference.Interference.TheVariants.{Interfering, Unrelated};

use crate::trial::{Half, ReachTrial};
use flow_set::{Flow, FlowSet, HostSet};
use inv_law::{Invariant, Stepwise, Strategy};
use reach_core::JoinClosure;
use std::alloc::{AllocError, Global};
use std::marker::Model;

// Whether a host is interfering.
#[derive(Clone, Copy, PartialEq, Eq)]
enum Interference {
    // The host is interfering.
    Interfering,
    // The host is not interfering: it may be joined with all hosts.
    Unrelated,
}

/// Isolates interfering hosts from each other.
#[derive(Drop)]
pub struct NonInterference {
    kinds: Vec<Interference>,
}

impl Model for NonInterference {
    ghost use Rattle.std.specs.Prelude.{List, length, ◌<◌, ◌^◌};
    ghost use Rattle.tmpl_reach.specs.declared.non_interference.Interference.{Interference};

    ghost Value = { List Interference };

    ghost view = { λ x. x.kinds.items };

    ghost invariant = { λ x. length x.kinds.items < 2 ^ 16 };
}

impl NonInterference {
    /// Returns the invariant of `n` interfering hosts.
    pub fn new(alloc: Global, n: u16) -> Result<Self, AllocError>
        ensures { IfOk result (λ x. x ≡ replicate n Interfering) }
    {
        let mut kinds = Vec::new(alloc);
        kinds.resize(n as usize, Interference::Interfering)?;
        Ok(NonInterference { kinds })
    }

    /// Lets the host be joined with all hosts.
    pub fn set_unrelated(&mut self, host: u16)
        requires { host < length self.old }
        ensures { self.new ≡ slice_set self.old host Unrelated }
    {
        self.kinds[host as usize] = Interference::Unrelated;
    }

    fn interferes(&self, host: u16) -> bool
        requires { host < length self.now }
        ensures { IsTrue result ↔ IsInterfering self.now host }
    {
        self.kinds[host as usize] == Interference::Interfering
    }

    // Returns the interfering hosts.
    fn interfering(&self) -> HostSet
        requires { length self.now ≤ 256 }
        ensures { (host : ℕ) → IsTrue (set.contains result host) ↔ IsInterfering self.now host }
    {
        let mut hosts = HostSet::empty();
        for host in 0..self.kinds.len() as u16 {
            if self.interferes(host) {
                hosts.insert(host);
            }
        }
        hosts
    }

    // Whether no interfering host is joined with another.
    fn all_isolated(&self, closure: &JoinClosure) -> bool
        requires { closure.now.size ≡ length self.now }
        ensures { IsTrue result ↔ IsNonInterfering self.now closure.now.flows }
    {
        let size = closure.size();
        let interfering = self.interfering();
        for host in 0..size {
            if interfering.has(host) && !is_apart(&interfering, closure, host) {
                return false;
            }
        }
        true
    }

    // Whether no interfering host is joined with another after one more flow, provided that none is
    // without it.
    fn still_isolated(&self, closure: &JoinClosure, f: Flow) -> bool
        requires size { closure.now.size ≡ length self.now }
        requires flow { IsFlow closure.now.size f }
        requires held { IsNonInterfering self.now closure.now.flows }
        ensures { IsTrue result ↔ IsNonInterfering self.now (with_flow closure.now.flows f) }
    {
        let _ = closure.size();
        if closure.joined(f.from, f.to) {
            return true;
        }
        let hosts = closure.joined_by(f);
        self.has_one_at_most(&hosts)
    }

    // Whether at most one of the hosts is interfering.
    fn has_one_at_most(&self, hosts: &HostSet) -> bool
        requires small { length self.now ≤ 256 }
        requires hosts { EachOf hosts.now (λ host. host < length self.now) }
        ensures { IsTrue result ↔ HasOneAtMost self.now hosts.now }
    {
        let Some(first) = self.next_interfering(hosts, 0) else {
            return true;
        };
        match self.next_interfering(hosts, first + 1) {
            Some(_) => false,
            None => true,
        }
    }

    // Returns the first interfering host of the set, from `from` on.
    fn next_interfering(&self, hosts: &HostSet, from: u16) -> Option<u16>
        requires { EachOf hosts.now (λ host. host < length self.now) }
        ensures { MatchOption result
            (NoneInterferes self.now hosts.now from 256)
            (IsNextInterfering self.now hosts.now from) }
    {
        let mut from = from;
        while let Some(host) = hosts.first_from(from) {
            if self.interferes(host) {
                return Some(host);
            }
            from = host + 1;
        }
        None
    }
}

// Whether the host is joined with no other host of the set.
fn is_apart(hosts: &HostSet, closure: &JoinClosure, host: u16) -> bool
    requires host { host < closure.now.size }
    requires few { closure.now.size ≤ 256 }
    ensures { IsTrue result ↔ ((other : ℕ) → host ≢ other → IsTrue (set.contains hosts.now other) → Joined closure.now.flows host other → ⊥) }
{
    let mut others = closure.joined_with(host).copy();
    others.remove(host);
    others.is_apart(hosts)
}

impl Invariant for NonInterference {
    ghost size_of = { λ kinds. length kinds };

    ghost strategy_of = { λ _. Information };

    ghost edge_mark = { λ _. false };

    ghost holds_on = { IsNonInterfering };

    ghost holds_after_reset = { IsNonInterferingAfterReset };

    ghost reset_gives = { λ kinds host new. new ≡ slice_set kinds host Interfering };

    fn strategy(&self) -> Strategy {
        Strategy::Information
    }

    fn edge_wise(&self) -> bool {
        false
    }

    fn hosts(&self) -> u16 {
        self.kinds.len() as u16
    }

    fn admits(&self, f: Flow) -> bool {
        !(self.interferes(f.from) && self.interferes(f.to))
    }

    fn holds(&self, alloc: Global, e: &FlowSet) -> Result<bool, AllocError> {
        let closure = JoinClosure::of(alloc, e)?;
        Ok(self.all_isolated(&closure))
    }

    fn with_default(&self, alloc: Global, host: u16) -> Result<Self, AllocError> {
        let mut kinds = Vec::from_slice(alloc, &self.kinds)?;
        kinds[host as usize] = Interference::Interfering;
        Ok(NonInterference { kinds })
    }

    ghost downward = { λ kinds. IsNonInterfering-downward (length kinds) kinds };

    ghost holds_on_none = { IsNonInterfering-none };

    ghost reset_preserves_violation = { IsNonInterfering-reset };

    ghost mark_is_right = { λ _ marked. absurd (false≢true marked) };
}

impl Stepwise for NonInterference {
    type Tried = ReachTrial;

    ghost fits = { λ x tried. FitsJoin (length x) tried.half };

    fn trial(&self, alloc: Global, e: &FlowSet) -> Result<ReachTrial, AllocError> {
        Ok(ReachTrial {
            half: Half::Join(JoinClosure::of(alloc, e)?),
        })
    }

    fn step(&self, tried: &mut ReachTrial, f: Flow) -> bool {
        match &mut tried.half {
            Half::Join(closure) => {
                let holds = self.still_isolated(closure, f);
                closure.try_add(f);
                holds
            }
            _ => false,
        }
    }

    fn back(&self, tried: &mut ReachTrial) {
        match &mut tried.half {
            Half::Join(closure) => closure.undo(),
            _ => (),
        }
    }

    fn holds_with(&self, tried: &mut ReachTrial, f: Flow) -> bool {
        match &mut tried.half {
            Half::Join(closure) => {
                closure.forget();
                self.still_isolated(closure, f)
            }
            _ => false,
        }
    }

    ghost fits_size = { λ x tried fits. fits.size };
}
