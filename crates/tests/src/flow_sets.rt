//! Allocation succeeds for a set of all flows, a copy and a set with reversed flows, with three
//! hosts and two.

use crate::flows::{A_TO_B, B_TO_A};
use flow_set::FlowSet;
use std::test::Fail;

#[test]
fn sets_of_three_hosts(rt: HostRuntime) -> Result<(), Fail> {
    let full = FlowSet::full(rt.alloc(), 3)?;
    let mut fewer = full.copy(rt.alloc())?;
    assert!(rt; fewer.remove(A_TO_B));
    assert_eq!(rt; full.len(), 6);
    assert_eq!(rt; fewer.len(), 5);
    Ok(())
}

#[test]
fn a_flow_with_its_reverse(rt: HostRuntime) -> Result<(), Fail> {
    let mut asked = FlowSet::empty(rt.alloc(), 2)?;
    assert!(rt; asked.insert(A_TO_B));
    let both = asked.with_back(rt.alloc(), &asked)?;
    let mut seen = both.iter();
    assert_eq!(rt; seen.next(), Some(A_TO_B));
    assert_eq!(rt; seen.next(), Some(B_TO_A));
    assert_eq!(rt; seen.next(), None);
    Ok(())
}
