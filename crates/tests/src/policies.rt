//! The permitted policy of example networks, by whole sets and by steps.

ghost use Rattle.std.specs.Prelude.{◌≡◌, All, IfOk, length};

use crate::flows::{A_TO_B, A_TO_C, B_TO_A, B_TO_C, C_TO_B};
use flow_set::{Flow, FlowSet};
use inv_any::AnyInv;
use inv_law::{EdgeWise, Stepwise};
use permit_core::{permit, permit_by_steps};
use std::alloc::{AllocError, Global};
use std::test::Fail;
use tmpl_levels::Blp;
use tmpl_reach::{Dependability, NoReach, NonInterference};
use tmpl_zones::{SinkKind, SinkRule};

// Returns the permitted flows, in order, by whole sets and by steps.
fn permitted<I: Stepwise>(
    alloc: Global,
    invs: &[I],
    asked: &FlowSet,
) -> Result<(Vec<Flow>, Vec<Flow>), AllocError>
    requires { All (λ inv. I.size_of inv ≡ asked.now.size) invs.now }
{
    let whole = permit(alloc, invs, asked)?;
    let by_steps = permit_by_steps(alloc, invs, asked)?;
    Ok((listed(alloc, &whole)?, listed(alloc, &by_steps)?))
}

fn listed(alloc: Global, set: &FlowSet) -> Result<Vec<Flow>, AllocError> {
    let mut flows = Vec::new(alloc);
    for f in set.iter() {
        flows.push(f)?;
    }
    Ok(flows)
}

// Hosts a and b may reach one other host each, and host c none.
fn limits(alloc: Global) -> Result<Dependability, AllocError>
    ensures { IfOk result (λ limits. length limits ≡ 3) }
{
    let mut limits = Dependability::new(alloc, 3)?;
    limits.set(0, 1);
    limits.set(1, 1);
    Ok(limits)
}

#[test]
fn a_limit_denies_a_flow(rt: HostRuntime) -> Result<(), Fail> {
    let invs = [AnyInv::Dependability(limits(rt.alloc())?)];
    let mut asked = FlowSet::empty(rt.alloc(), 3)?;
    asked.insert(A_TO_B);
    asked.insert(B_TO_C);
    let (whole, by_steps) = permitted(rt.alloc(), &invs, &asked)?;
    assert_eq!(rt; whole.as_slice(), [A_TO_B].as_slice());
    assert_eq!(rt; by_steps.as_slice(), [A_TO_B].as_slice());
    Ok(())
}

// Each of the two requested flows violates one of the invariants together with the other flow.
#[test]
fn two_invariants_deny_one_flow(rt: HostRuntime) -> Result<(), Fail> {
    let mut denials = NoReach::new(rt.alloc(), 3)?;
    denials.clear(0);
    denials.clear(1);
    denials.clear(2);
    denials.deny(0, 1);
    let invs = [
        AnyInv::Dependability(limits(rt.alloc())?),
        AnyInv::NoReach(denials),
    ];
    let mut asked = FlowSet::empty(rt.alloc(), 3)?;
    asked.insert(A_TO_B);
    asked.insert(B_TO_C);
    let (whole, by_steps) = permitted(rt.alloc(), &invs, &asked)?;
    assert_eq!(rt; whole.as_slice(), [B_TO_C].as_slice());
    assert_eq!(rt; by_steps.as_slice(), [B_TO_C].as_slice());
    Ok(())
}

#[test]
fn interfering_hosts_are_not_joined(rt: HostRuntime) -> Result<(), Fail> {
    let mut apart = NonInterference::new(rt.alloc(), 4)?;
    apart.set_unrelated(3);
    let invs = [AnyInv::NonInterference(apart)];
    let first = Flow { from: 0, to: 3 };
    let mut asked = FlowSet::empty(rt.alloc(), 4)?;
    asked.insert(first);
    asked.insert(Flow { from: 1, to: 3 });
    asked.insert(Flow { from: 3, to: 2 });
    let (whole, by_steps) = permitted(rt.alloc(), &invs, &asked)?;
    assert_eq!(rt; whole.as_slice(), [first].as_slice());
    assert_eq!(rt; by_steps.as_slice(), [first].as_slice());
    Ok(())
}

// A database of level 2, a trusted web server of level 1 that is a sink, and a log.
#[test]
fn levels_and_a_sink(rt: HostRuntime) -> Result<(), Fail> {
    let mut levels = Blp::new(rt.alloc(), 3)?;
    levels.set(0, 2, false);
    levels.set(1, 1, true);
    let mut sinks = SinkRule::new(rt.alloc(), 3)?;
    sinks.set(1, SinkKind::Sink);
    let invs = [
        AnyInv::Blp(EdgeWise::new(levels)),
        AnyInv::Sink(EdgeWise::new(sinks)),
    ];
    let mut asked = FlowSet::empty(rt.alloc(), 3)?;
    asked.insert(A_TO_C);
    asked.insert(B_TO_A);
    asked.insert(C_TO_B);
    let (whole, by_steps) = permitted(rt.alloc(), &invs, &asked)?;
    assert_eq!(rt; whole.as_slice(), [C_TO_B].as_slice());
    assert_eq!(rt; by_steps.as_slice(), [C_TO_B].as_slice());
    Ok(())
}
