//! The invariant that holds if every flow passes a rule. Its laws are proved here once, for every
//! lawful rule.

ghost use Rattle.std.specs.Prelude.{◌≡◌, ◌↔◌, true, IsTrue};
ghost use Rattle.inv_law.specs.Rules.{AllFlowsPass};
ghost use Rattle.inv_law.specs.laws.RuleLaws.{AllFlowsPass-downward, AllFlowsPass-none, AllFlowsPass-edge_wise, AllFlowsPass-reset};

use crate::edge_rule::EdgeRule;
use crate::invariant::Invariant;
use crate::strategy::Strategy;
use flow_set::{Flow, FlowSet};
use std::alloc::{AllocError, Global};
use std::marker::Model;

/// The invariant of a rule. It is edge-wise, and lawful if the rule is.
#[derive(Drop)]
pub struct EdgeWise<R> {
    rule: R,
}

impl<R> Model for EdgeWise<R> {
    ghost Value = { R };

    ghost view = { λ x. x.rule };
}

impl<R> EdgeWise<R> {
    pub fn new(rule: R) -> Self
        ensures { result ≡ rule }
    {
        EdgeWise { rule }
    }

    pub fn rule(&self) -> &R
        ensures { result.now ≡ self.now }
    {
        &self.rule
    }
}

impl<R: EdgeRule> Invariant for EdgeWise<R> {
    ghost size_of = { λ x. R.size_of x };

    ghost strategy_of = { λ x. R.strategy_of x };

    ghost edge_mark = { λ _. true };

    ghost holds_on = { λ x e. AllFlowsPass (R.passes_from x) e };

    ghost holds_after_reset = { λ x host e. AllFlowsPass (R.passes_after_reset x host) e };

    ghost reset_gives = { λ x host new. R.reset_gives x host new };

    fn strategy(&self) -> Strategy {
        self.rule.strategy()
    }

    fn edge_wise(&self) -> bool {
        true
    }

    fn hosts(&self) -> u16 {
        self.rule.hosts()
    }

    fn admits(&self, f: Flow) -> bool {
        self.rule.passes(f.from, f.to)
    }

    fn holds(&self, _alloc: Global, e: &FlowSet) -> Result<bool, AllocError> {
        Ok(all_pass(&self.rule, e))
    }

    fn with_default(&self, alloc: Global, host: u16) -> Result<Self, AllocError> {
        Ok(EdgeWise {
            rule: self.rule.with_default(alloc, host)?,
        })
    }

    ghost downward = { λ x. AllFlowsPass-downward (R.size_of x) (R.passes_from x) };

    ghost holds_on_none = { λ x. AllFlowsPass-none (R.passes_from x) };

    ghost reset_preserves_violation = { λ x. AllFlowsPass-reset (R.size_of x) (R.strategy_of x) (R.passes_from x) (R.passes_after_reset x) (R.reset_passes_no_more x) };

    ghost mark_is_right = { λ x _. AllFlowsPass-edge_wise (R.size_of x) (R.passes_from x) };
}

// Whether every flow of the set passes the rule.
fn all_pass<R: EdgeRule>(rule: &R, e: &FlowSet) -> bool
    requires { e.now.size ≡ R.size_of rule.now }
    ensures { IsTrue result ↔ AllFlowsPass (R.passes_from rule.now) e.now.flows }
{
    for f in e.iter() {
        if !rule.passes(f.from, f.to) {
            return false;
        }
    }
    true
}
