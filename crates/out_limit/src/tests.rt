//! Tests of the template with the calls on invariants of any type. The calls that use steps are
//! tested with `Dependability`, since the template has no steps.

ghost use Rattle.std.specs.Prelude.{◌≡◌, ◌≤◌, All, length, IfOk};
ghost use Rattle.flow_set.specs.Flow.{IsFlow};

use crate::OutLimit;
use crate::steps_only::StepsOnly;
use flow_set::{Flow, FlowSet};
use inv_law::{Invariant, Stepwise};
use permit_core::{
    blame, blame_by_steps, offending, offending_by_steps, permit, permit_by_steps, trials_of,
};
use state_core::{refine, refine_by_steps, with_answers};
use std::alloc::{AllocError, Global};
use std::test::Fail;
use tmpl_reach::Dependability;

const FIRST: Flow = Flow { from: 0, to: 1 };

const SECOND: Flow = Flow { from: 0, to: 2 };

const ANSWER: Flow = Flow { from: 1, to: 0 };

const ONWARD: Flow = Flow { from: 1, to: 2 };

// Returns the template of three hosts.
fn three_hosts(alloc: Global, first: u16, others: u16) -> Result<OutLimit, AllocError>
    ensures { IfOk result (λ template. length template ≡ 3) }
{
    let mut template = OutLimit::new(alloc, 3)?;
    template.set(0, first);
    template.set(1, others);
    template.set(2, others);
    Ok(template)
}

#[test]
fn one_flow_of_the_first_host(rt: HostRuntime) -> Result<(), Fail> {
    let invs = [three_hosts(rt.alloc(), 1, 0)?];
    let asked = FlowSet::full(rt.alloc(), 3)?;
    let p = permit(rt.alloc(), &invs, &asked)?;
    assert_eq!(rt; p.len(), 1);
    assert!(rt; p.has(FIRST));
    let stateful = refine(rt.alloc(), &invs, &p)?;
    assert!(rt; stateful.is_empty());
    let both = with_answers(rt.alloc(), &p, &p)?;
    assert!(rt; both.has(ANSWER));
    Ok(())
}

#[test]
fn two_templates_deny(rt: HostRuntime) -> Result<(), Fail> {
    let invs = [
        three_hosts(rt.alloc(), 1, 1)?,
        three_hosts(rt.alloc(), 1, 0)?,
    ];
    let asked = FlowSet::full(rt.alloc(), 3)?;
    let p = permit(rt.alloc(), &invs, &asked)?;
    assert_eq!(rt; blame(rt.alloc(), &invs, &p, SECOND)?, Some(0));
    assert_eq!(rt; blame(rt.alloc(), &invs, &p, ANSWER)?, Some(1));
    assert_eq!(rt; blame(rt.alloc(), &invs, &p, FIRST)?, None);
    Ok(())
}

#[test]
fn flows_that_break_a_template(rt: HostRuntime) -> Result<(), Fail> {
    let template = three_hosts(rt.alloc(), 1, 1)?;
    let asked = FlowSet::full(rt.alloc(), 3)?;
    let broken = offending(rt.alloc(), &template, &asked)?;
    assert_eq!(rt; broken.map(|flows| flows.len()), Some(3));
    let none = FlowSet::empty(rt.alloc(), 3)?;
    assert!(rt; offending(rt.alloc(), &template, &none)?.is_none());
    Ok(())
}

#[test]
fn a_host_is_reset(rt: HostRuntime) -> Result<(), Fail> {
    let template = three_hosts(rt.alloc(), 1, 1)?;
    let mut asked = FlowSet::empty(rt.alloc(), 3)?;
    asked.insert(FIRST);
    assert!(rt; template.holds(rt.alloc(), &asked)?);
    let reset = template.with_default(rt.alloc(), 0)?;
    assert!(rt; !reset.holds(rt.alloc(), &asked)? && !reset.admits(FIRST));
    assert!(rt; reset.admits(ANSWER));
    Ok(())
}

// Returns the limits of three hosts, evaluated only by steps.
fn limited(
    alloc: Global,
    start: u32,
    limits: (u16, u16, u16),
) -> Result<StepsOnly<Dependability>, AllocError>
    ensures { IfOk result (λ x. length x.inner ≡ 3) }
{
    let mut inner = Dependability::new(alloc, 3)?;
    inner.set(0, limits.0);
    inner.set(1, limits.1);
    inner.set(2, limits.2);
    Ok(StepsOnly { inner, start })
}

#[test]
fn by_steps_alone(rt: HostRuntime) -> Result<(), Fail> {
    let invs = [limited(rt.alloc(), 0, (1, 1, 0))?];
    let mut asked = FlowSet::empty(rt.alloc(), 3)?;
    asked.insert(FIRST);
    asked.insert(ONWARD);
    let p = permit_by_steps(rt.alloc(), &invs, &asked)?;
    assert_eq!(rt; p.len(), 1);
    assert!(rt; p.has(FIRST));
    let broken = offending_by_steps(rt.alloc(), &invs[0], &asked)?;
    let found = broken.map(|flows| (flows.len(), flows.at_or_after(0, 0)));
    assert_eq!(rt; found, Some((1, Some(ONWARD))));
    assert!(rt; permit(rt.alloc(), &invs, &asked).is_err());
    Ok(())
}

// Returns the invariant that denies the flow in the permitted policy: twice with the same trials
// and once without.
fn denied_by<I: Stepwise>(
    alloc: Global,
    invs: &[I],
    asked: &FlowSet,
    f: Flow,
) -> Result<[Option<u16>; 3], AllocError>
    requires sizes { All (λ inv. I.size_of inv ≡ asked.now.size) invs.now }
    requires flow { IsFlow asked.now.size f }
    requires numbers { length invs.now ≤ 65536 }
{
    let p = permit_by_steps(alloc, invs, asked)?;
    let mut trials = trials_of(alloc, invs, &p)?;
    let first = blame_by_steps(invs, &mut trials, &p, f);
    let second = blame_by_steps(invs, &mut trials, &p, f);
    Ok([first, second, blame(alloc, invs, &p, f)?])
}

#[test]
fn blamed_by_steps(rt: HostRuntime) -> Result<(), Fail> {
    let mut limits = Dependability::new(rt.alloc(), 3)?;
    limits.set(0, 1);
    limits.set(1, 1);
    let mut asked = FlowSet::empty(rt.alloc(), 3)?;
    asked.insert(FIRST);
    asked.insert(ONWARD);
    let blamed = denied_by(rt.alloc(), &[limits], &asked, ONWARD)?;
    assert_eq!(rt; blamed, [Some(0), Some(0), Some(0)]);
    Ok(())
}

// Returns the stateful flows of `p` by steps only, if the limits hold for it.
fn refined(alloc: Global, limits: Dependability, p: &FlowSet) -> Result<Option<FlowSet>, AllocError>
    requires { p.now.size ≡ length limits }
{
    if !limits.holds(alloc, p)? {
        return Ok(None);
    }
    let invs = [StepsOnly {
        inner: limits,
        start: p.len(),
    }];
    Ok(Some(refine_by_steps(alloc, &invs, p)?))
}

#[test]
fn answers_by_steps_alone(rt: HostRuntime) -> Result<(), Fail> {
    let mut limits = Dependability::new(rt.alloc(), 3)?;
    for host in 0..3 {
        limits.set(host, 2);
    }
    let mut p = FlowSet::empty(rt.alloc(), 3)?;
    p.insert(FIRST);
    p.insert(SECOND);
    let stateful = refined(rt.alloc(), limits, &p)?;
    assert_eq!(rt; stateful.map(|flows| flows.len()), Some(2));
    Ok(())
}

#[test]
fn a_hundred_and_twenty_eight_hosts(rt: HostRuntime) -> Result<(), Fail> {
    let mut limits = Dependability::new(rt.alloc(), 128)?;
    for host in 0..128 {
        limits.set(host, 127);
    }
    let invs = [limits];
    let full = FlowSet::full(rt.alloc(), 128)?;
    let p = permit_by_steps(rt.alloc(), &invs, &full)?;
    assert_eq!(rt; p.len(), 16256);
    let s = refine_by_steps(rt.alloc(), &invs, &p)?;
    assert_eq!(rt; s.len(), 16256);
    Ok(())
}
