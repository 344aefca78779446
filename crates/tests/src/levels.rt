//! Templates that rank hosts: the levels of an example network, and labels and positions of two
//! hosts, each also with the default at a host.

ghost use Rattle.std.specs.Prelude.{◌≤◌};

use crate::asking::before_and_after;
use crate::flows::A_TO_B;
use inv_law::{EdgeRule, EdgeWise};
use std::test::Fail;
use tmpl_domains::Domains;
use tmpl_levels::{Blp, Tainting};

// A database of level 2, a trusted web server of level 1, which is reset, and a log.
#[test]
fn a_level_is_reset(rt: HostRuntime) -> Result<(), Fail> {
    let mut rule = Blp::new(rt.alloc(), 3)?;
    rule.set(0, 2, false);
    rule.set(1, 1, true);
    let trusted_reset = before_and_after(rt.alloc(), &EdgeWise::new(rule), 1, A_TO_B)?;
    assert_eq!(rt; trusted_reset, (true, false));
    Ok(())
}

// Returns whether flows between two hosts pass, in both directions.
fn both<R: EdgeRule>(rule: &R) -> (bool, bool)
    requires { 2 ≤ R.size_of rule.now }
{
    (rule.passes(0, 1), rule.passes(1, 0))
}

// The sender adds one label and removes the other, which the receiver has, too.
#[test]
#[tactic(auto, using(tmpl_levels::specs::laws::TaintingLaws::own_by_mask))]
fn labels_are_reset(rt: HostRuntime) -> Result<(), Fail> {
    let mut rule = Tainting::new(rt.alloc(), 2)?;
    rule.set(0, 3, 1);
    rule.set(1, 2, 0);
    assert_eq!(rt; both(&rule), (true, true));
    let receiver_reset = before_and_after(rt.alloc(), &EdgeWise::new(rule), 1, A_TO_B)?;
    assert_eq!(rt; receiver_reset, (true, false));
    Ok(())
}

// A trusted host sends into its parent.
#[test]
fn a_place_is_reset(rt: HostRuntime) -> Result<(), Fail> {
    let mut rule = Domains::new(rt.alloc(), 2)?;
    rule.set(0, b"a/b", 1)?;
    rule.set(1, b"a/c", 0)?;
    assert_eq!(rt; both(&rule), (true, false));
    let sender_reset = before_and_after(rt.alloc(), &EdgeWise::new(rule), 0, A_TO_B)?;
    assert_eq!(rt; sender_reset, (true, false));
    Ok(())
}
