//! The pairs that another default of a table would let pass, which no command of the program
//! computes, and a table with the default at a host.

ghost use Rattle.std.specs.Prelude.{◌≡◌, ◌<◌, All, length};

use crate::asking::before_and_after;
use crate::flows::A_TO_B;
use host_net::Name;
use inv_any::AnyInv;
use inv_law::{EdgeWise, Strategy};
use std::alloc::Global;
use std::process::Abort;
use std::test::Fail;
use tmpl_table::TableRule;

/// The first kind of a table of two.
const INSIDE: u8 = 0;

/// The second kind, which is the default.
const OUTSIDE: u8 = 1;

// Returns the rule of two hosts and two kinds that denies these pairs, with the sender as the
// offending host.
fn denying(rt: &impl Abort, alloc: Global, denied: &[(u8, u8)]) -> TableRule
    requires { All (λ pair. (pair.0 < 2) × (pair.1 < 2)) denied.now }
    ensures hosts { length result.hosts ≡ 2 }
    ensures kinds { result.table.kinds ≡ 2 }
{
    let access = Strategy::Access;
    let Ok(rule) = TableRule::new(alloc, 2, Name::none(), access, 2, OUTSIDE, denied) else {
        panic!(rt; "no rule");
    };
    rule
}

#[test]
fn another_default_is_weaker(rt: HostRuntime) {
    let denied = [(OUTSIDE, INSIDE)];
    let rule = denying(&rt, rt.alloc(), &denied);
    assert_eq!(rt; rule.weaker(INSIDE), Some((OUTSIDE, INSIDE)));
    let denied = [(INSIDE, INSIDE), (OUTSIDE, INSIDE)];
    let rule = denying(&rt, rt.alloc(), &denied);
    assert_eq!(rt;
        rule.weaker(INSIDE),
        None,
        "a kind that is denied to itself"
    );
}

#[test]
fn a_kind_is_reset(rt: HostRuntime) -> Result<(), Fail> {
    let denied = [(OUTSIDE, INSIDE)];
    let mut rule = denying(&rt, rt.alloc(), &denied);
    rule.set(0, INSIDE);
    rule.set(1, INSIDE);
    let inv = AnyInv::Table(EdgeWise::new(rule));
    let sender_reset = before_and_after(rt.alloc(), &inv, 0, A_TO_B)?;
    assert_eq!(rt; sender_reset, (true, false));
    Ok(())
}
