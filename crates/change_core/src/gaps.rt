//! Gaps of a new network that an old network does not have.

ghost use Rattle.std.specs.Prelude.{◌≡◌, ◌↔◌, IfOk, IsTrue, if◌then◌else◌};
ghost use Rattle.flow_set.specs.declared.flow.Flow.{Flow};
ghost use Rattle.flow_set.specs.Flow.{IsFlow};
ghost use Rattle.flow_set.specs.FlowSet.{has, with_flow};
ghost use Rattle.change_core.specs.Weaker.{IsNewGap};
ghost use Rattle.change_core.specs.inner.Listing.{lacks_from, lacks_some};

use crate::sharing::{flow_in, row_of, shared_owners};
use flow_set::{Flow, FlowSet};
use host_net::Hosts;
use std::alloc::{AllocError, Global};

/// Returns the flows in `gaps` of which some packet belongs to no flow in `old_gaps`, where `gaps` has flows
/// between the hosts `new`, and `old_gaps` has flows between the hosts `old`. A packet belongs to no flow if
/// one of its addresses has no owner, or if both have the same owner.
pub fn new_gaps(
    alloc: Global,
    old: &Hosts,
    old_gaps: &FlowSet,
    new: &Hosts,
    gaps: &FlowSet,
) -> Result<FlowSet, AllocError>
    ensures size { IfOk result (λ set. set.size ≡ gaps.now.size) }
    ensures exact { IfOk result (λ set. (f : Flow) → (IsTrue (has set.flows f) ↔
        IsNewGap old.now old_gaps.now.flows new.now gaps.now.flows f)) }
{
    let rows = shared_owners(alloc, new, old)?;
    let mut set = FlowSet::empty(alloc, gaps.size())?;
    for flow in gaps.iter() {
        let from = row_of(&rows, flow.from);
        let to = row_of(&rows, flow.to);
        insert_if(&mut set, flow, lacks_some(old_gaps, from, to));
    }
    Ok(set)
}

fn insert_if(set: &mut FlowSet, flow: Flow, wanted: bool)
    requires { IsFlow set.old.size flow }
    ensures { set.new ≡ (if wanted then record set.old { flows = with_flow set.old.flows flow } else set.old) }
{
    if wanted {
        set.insert(flow);
    }
}

/// Whether the set lacks a flow from an owner in `from` to an owner in `to`.
fn lacks_some(set: &FlowSet, from: &[Option<u16>], to: &[Option<u16>]) -> bool
    ensures { result ≡ lacks_some set.now.flows from.now to.now }
{
    from.iter().any(|sender| lacks_from(set, *sender, to))
}

/// Whether the set lacks a flow from the owner `sender` to an owner in `to`.
fn lacks_from(set: &FlowSet, sender: Option<u16>, to: &[Option<u16>]) -> bool
    ensures { result ≡ lacks_from set.now.flows to.now sender }
{
    to.iter()
        .any(|receiver| flow_in(set, sender, *receiver).is_none())
}
