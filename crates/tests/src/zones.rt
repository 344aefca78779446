//! Templates that divide hosts into zones: pairs of hosts, and rules with the default at a host.

use crate::asking::before_and_after;
use crate::flows::A_TO_B;
use inv_law::{EdgeRule, EdgeWise};
use std::test::Fail;
use tmpl_zones::{GateKind, Gateway, NetKind, Partners, SinkKind, SinkRule, Subnets};

#[test]
fn a_subnet_sends_to_its_border(rt: HostRuntime) -> Result<(), Fail> {
    let mut rule = Subnets::new(rt.alloc(), 2)?;
    rule.set(0, NetKind::Subnet(1));
    rule.set(1, NetKind::Border(1));
    assert!(rt; rule.passes(0, 1));
    assert!(rt; !rule.passes(1, 0));
    Ok(())
}

#[test]
fn a_gateway_is_reached_from_outside(rt: HostRuntime) -> Result<(), Fail> {
    let mut rule = Gateway::new(rt.alloc(), 2)?;
    rule.set(1, GateKind::GatewayIn);
    assert!(rt; rule.passes(0, 1));
    Ok(())
}

#[test]
fn a_pool_is_reset(rt: HostRuntime) -> Result<(), Fail> {
    let mut rule = SinkRule::new(rt.alloc(), 2)?;
    rule.set(0, SinkKind::Pool);
    rule.set(1, SinkKind::Pool);
    let receiver_reset = before_and_after(rt.alloc(), &EdgeWise::new(rule), 1, A_TO_B)?;
    assert_eq!(rt; receiver_reset, (true, false));
    Ok(())
}

// A host that cares takes from no other host.
#[test]
fn a_partner_cares(rt: HostRuntime) -> Result<(), Fail> {
    let mut rule = Partners::new(rt.alloc(), 2)?;
    rule.set_care(1);
    assert!(rt; !rule.passes(0, 1));
    assert!(rt; rule.passes(1, 0));
    Ok(())
}

#[test]
fn a_master_is_reset(rt: HostRuntime) -> Result<(), Fail> {
    let mut rule = Partners::new(rt.alloc(), 2)?;
    rule.set_master(1);
    let receiver_reset = before_and_after(rt.alloc(), &EdgeWise::new(rule), 1, A_TO_B)?;
    assert_eq!(rt; receiver_reset, (false, true));
    Ok(())
}
