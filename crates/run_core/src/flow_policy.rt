//! The policy of a description as one value.

ghost use Rattle.std.specs.Prelude.{◌≡◌, length};
ghost use Rattle.report_core.specs.FlowPolicies.{flow_policy_of};

use desc_core::Description;
use net_core::Policy;
use pkt_core::FlowPolicy;

/// Returns the policy between the hosts of a description.
pub fn policy_between<'a>(description: &'a Description, policy: &'a Policy) -> FlowPolicy<'a>
    requires permitted { policy.now.permitted.size ≡ length description.now.hosts }
    requires stateful { policy.now.stateful.size ≡ length description.now.hosts }
    ensures { result ≡ flow_policy_of description.now policy.now }
{
    FlowPolicy::new(
        description.hosts(),
        description.services(),
        policy.permitted(),
        policy.stateful(),
    )
}
