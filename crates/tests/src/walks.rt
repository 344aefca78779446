//! Walks along a cycle, one step that is undone, and each template on paths: evaluated on sets,
//! also with the default at a host, and by steps.

ghost use Rattle.std.specs.Prelude.{◌≡◌, ◌<◌};
ghost use Rattle.flow_set.specs.Flow.{IsFlow};

use crate::flows::{A_TO_B, A_TO_C, B_TO_A, B_TO_C};
use flow_set::{Flow, FlowSet};
use inv_law::{Invariant, Stepwise};
use reach_core::Closure;
use std::alloc::{AllocError, Global};
use std::test::Fail;
use tmpl_reach::{Dependability, NoReach, NonInterference};

#[test]
fn a_round_trip_leads_back(rt: HostRuntime) -> Result<(), Fail> {
    let mut e = FlowSet::empty(rt.alloc(), 3)?;
    e.insert(A_TO_B);
    e.insert(B_TO_A);
    let walks = Closure::of(rt.alloc(), &e)?;
    assert!(rt; walks.reaches(0, 0));
    assert_eq!(rt; walks.count(0), 1);
    Ok(())
}

#[test]
fn one_step_and_back(rt: HostRuntime) -> Result<(), Fail> {
    let mut e = FlowSet::empty(rt.alloc(), 3)?;
    e.insert(A_TO_B);
    let mut walks = Closure::of(rt.alloc(), &e)?;
    walks.try_add(B_TO_C);
    assert!(rt; walks.reaches(0, 2) && walks.joined(2, 0));
    assert_eq!(rt; walks.count(0), 2);
    walks.undo();
    assert!(rt; !walks.reaches(0, 2));
    assert_eq!(rt; walks.count(0), 1);
    Ok(())
}

// Returns the results of an invariant for a set, for the set with the default at a host, and for a
// single flow.
fn answers<I: Invariant + Drop>(
    alloc: Global,
    inv: &I,
    e: &FlowSet,
    host: u16,
    f: Flow,
) -> Result<(bool, bool, bool), AllocError>
    requires set { e.now.size ≡ I.size_of inv.now }
    requires host { host < I.size_of inv.now }
    requires flow { IsFlow (I.size_of inv.now) f }
{
    let reset = inv.with_default(alloc, host)?;
    Ok((inv.holds(alloc, e)?, reset.holds(alloc, e)?, inv.admits(f)))
}

#[test]
fn dependability_counts_others(rt: HostRuntime) -> Result<(), Fail> {
    let mut inv = Dependability::new(rt.alloc(), 3)?;
    inv.set(0, 1);
    inv.set(1, 1);
    let mut e = FlowSet::empty(rt.alloc(), 3)?;
    e.insert(B_TO_C);
    assert_eq!(rt;
        answers(rt.alloc(), &inv, &e, 1, B_TO_C)?,
        (true, false, true)
    );
    e.insert(A_TO_B);
    assert_eq!(rt;
        answers(rt.alloc(), &inv, &e, 2, A_TO_B)?,
        (false, false, true)
    );
    Ok(())
}

#[test]
fn interfering_hosts_stay_apart(rt: HostRuntime) -> Result<(), Fail> {
    let mut inv = NonInterference::new(rt.alloc(), 4)?;
    inv.set_unrelated(3);
    let mut e = FlowSet::empty(rt.alloc(), 4)?;
    e.insert(Flow { from: 0, to: 3 });
    assert_eq!(rt;
        answers(rt.alloc(), &inv, &e, 3, A_TO_B)?,
        (true, false, false)
    );
    e.insert(Flow { from: 1, to: 3 });
    e.insert(Flow { from: 3, to: 2 });
    assert_eq!(rt;
        answers(rt.alloc(), &inv, &e, 0, Flow { from: 0, to: 3 })?,
        (false, false, true)
    );
    Ok(())
}

#[test]
fn denied_hosts_are_not_reached(rt: HostRuntime) -> Result<(), Fail> {
    let mut inv = NoReach::new(rt.alloc(), 3)?;
    inv.clear(0);
    inv.clear(1);
    inv.deny(0, 1);
    let mut e = FlowSet::empty(rt.alloc(), 3)?;
    e.insert(B_TO_C);
    assert_eq!(rt;
        answers(rt.alloc(), &inv, &e, 1, A_TO_B)?,
        (true, false, false)
    );
    inv.clear(2);
    e.insert(A_TO_B);
    assert_eq!(rt;
        answers(rt.alloc(), &inv, &e, 0, B_TO_C)?,
        (false, false, true)
    );
    Ok(())
}

#[test]
fn a_step_of_a_trial_is_taken_back(rt: HostRuntime) -> Result<(), Fail> {
    let mut inv = Dependability::new(rt.alloc(), 3)?;
    inv.set(0, 1);
    inv.set(1, 1);
    let none = FlowSet::empty(rt.alloc(), 3)?;
    let mut tried = inv.trial(rt.alloc(), &none)?;
    assert!(rt; inv.step(&mut tried, A_TO_B));
    assert!(rt; !inv.step(&mut tried, B_TO_C));
    inv.back(&mut tried);
    // Without the second flow host 1 reaches host 0; with the first flow host 0 does not reach host
    // 2.
    assert!(rt; inv.step(&mut tried, B_TO_A));
    inv.back(&mut tried);
    assert!(rt; !inv.step(&mut tried, A_TO_C));
    Ok(())
}
