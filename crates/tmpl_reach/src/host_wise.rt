//! Invariants that are evaluated for each host on the hosts that it reaches. After one more flow,
//! only the hosts that reach more are evaluated again.

ghost use Rattle.std.specs.Prelude.{◌≡◌, ℕ, ◌<◌, ◌≤◌, ◌↔◌, List, [], IsTrue};
ghost use Rattle.std.specs.FinSet as set;
ghost use Rattle.flow_set.specs.declared.flow.Flow.{Flow as Meant};
ghost use Rattle.flow_set.specs.Flow.{IsFlow};
ghost use Rattle.flow_set.specs.FlowSet.{with_flow};
ghost use Rattle.reach_core.specs.Walks.{Reaches};

use flow_set::{Flow, HostSet};
use reach_core::ReachClosure;

/// An invariant that holds if it allows each host to reach the hosts that it reaches.
pub(crate) trait HostWise: Sized {
    // The number of hosts, and whether the hosts that a host reaches along the flows are allowed.
    ghost hosts_of: { Self → ℕ };

    ghost allows_on: { Self → List Meant → ℕ → Type 0 };

    /// Whether the host may reach these hosts, for all flows along which it reaches them.
    fn allows(&self, host: u16, reached: &HostSet) -> bool
        requires host { host < hosts_of self.now }
        requires small { hosts_of self.now ≤ 256 }
        ensures { (e : List Meant) → ((j : ℕ) → IsTrue (set.contains reached.now j) ↔ Reaches e host j)
            → IsTrue result ↔ allows_on self.now e host };

    // A host may reach the empty set, and every subset of a set that it may reach.
    ghost allows_none: { (x : Self) (host : ℕ) → allows_on x [] host };

    ghost allows_fewer: { (x : Self) (s e : List Meant) (host : ℕ) → ((j : ℕ) → Reaches s host j → Reaches e host j)
        → allows_on x e host → allows_on x s host };
}

/// Whether each host may reach the hosts that it reaches.
pub(crate) fn all_allowed<R: HostWise>(rule: &R, closure: &ReachClosure) -> bool
    requires { closure.now.size ≡ R.hosts_of rule.now }
    ensures { IsTrue result ↔ ((host : ℕ) → R.allows_on rule.now closure.now.flows host) }
{
    for host in 0..closure.size() {
        if !rule.allows(host, closure.reached_from(host)) {
            return false;
        }
    }
    true
}

/// Whether each host may reach the hosts that it reaches with one more flow, provided that each may
/// without it.
pub(crate) fn still_allowed<R: HostWise>(rule: &R, closure: &ReachClosure, f: Flow) -> bool
    requires size { closure.now.size ≡ R.hosts_of rule.now }
    requires flow { IsFlow closure.now.size f }
    requires held { (host : ℕ) → R.allows_on rule.now closure.now.flows host }
    ensures { IsTrue result ↔ ((host : ℕ) → R.allows_on rule.now (with_flow closure.now.flows f) host) }
{
    let _ = closure.size();
    let hosts = closure.newly_reaching(f);
    let mut from = 0;
    while let Some(host) = hosts.first_from(from) {
        if !rule.allows(host, &closure.reached_with(f, host)) {
            return false;
        }
        from = host + 1;
    }
    true
}
