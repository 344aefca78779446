//! The summary of a description after an edit.

ghost use Rattle.edit_core.specs.Summaries.{Summarizes};
ghost use Rattle.net_core.specs.Policies.{IsPolicyOf};

use net_core::NetworkWithPolicy;

/// The numbers of asked, permitted and stateful flows, and of invariants that fail on the requested
/// flows.
#[derive(Clone, Copy, Debug, PartialEq, Eq)]
pub struct Summary {
    pub asked: u32,
    pub permitted: u32,
    pub stateful: u32,
    pub failing: u16,
}

/// Returns the summary of a network and its policy.
pub(crate) fn summary_of(network: &NetworkWithPolicy) -> Summary
    ensures tells { Summarizes network.now.network network.now.policy result }
    ensures policy { IsPolicyOf network.now.network network.now.policy }
{
    Summary {
        asked: network.description().asked().len(),
        permitted: network.permitted().len(),
        stateful: network.stateful().len(),
        failing: network.failed(),
    }
}
