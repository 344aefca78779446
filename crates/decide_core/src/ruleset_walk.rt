//! Traversals of a rule set, and the rules that decide packets.

ghost use Rattle.std.specs.Prelude.{◌≡◌, ◌<◌, length, IfOk, Option};
ghost use Rattle.host_net.specs.declared.packet.Packet.{Packet};
ghost use Rattle.host_net.specs.declared.packet.CtState.TheVariants.{New};
ghost use Rattle.header_space.specs.Boxes.{IsBox, IsIn, Narrows};
ghost use Rattle.ipt_rules.specs.declared.marks.Place.{Place};
ghost use Rattle.ipt_rules.specs.Chain.{rules_of};
ghost use Rattle.ipt_rules.specs.Meets.{IsRuleDecider};

use header_space::PacketBox;
use host_net::CtState;
use ipt_rules::{Marks, Place, Ruleset};
use std::alloc::{AllocError, Global};
use std::marker::Model;

/// A rule set, with the marks that a traversal of it sets.
#[derive(Drop)]
pub(crate) struct RulesetWalk<'a> {
    rules: &'a Ruleset,
    met: Marks,
}

impl<'a> Model for RulesetWalk<'a> {
    ghost use Rattle.std.specs.Prelude.{List};
    ghost use Rattle.ipt_rules.specs.Chain.{Chain};
    ghost use Rattle.ipt_rules.specs.Marks.{AreMarksOf};

    ghost Value = { List Chain };

    ghost view = { λ w. w.rules.now };

    ghost invariant = { λ w. AreMarksOf w.met w.rules.now };
}

impl<'a> RulesetWalk<'a> {
    pub(crate) fn new(alloc: Global, rules: &'a Ruleset) -> Result<RulesetWalk<'a>, AllocError>
        ensures { IfOk result (λ walk. walk ≡ rules.now) }
    {
        let met = Marks::new(alloc, rules)?;
        Ok(RulesetWalk { rules, met })
    }

    /// Returns the rule set.
    pub(crate) fn rules(&self) -> &'a Ruleset
        ensures { result.now ≡ self.now }
    {
        self.rules
    }

    /// Returns the number of rules of a chain.
    pub(crate) fn count_in(&self, chain: u16) -> u32
        requires { chain < length self.now }
        ensures { result ≡ length (rules_of self.now chain) }
    {
        // This call establishes that the number of rules fits `u32`.
        let _count = self.rules.rules();
        self.rules.rules_in(chain).len() as u32
    }

    /// Returns the place of the rule that decides the least packet of a box as a new packet, or `None` if the
    /// policy decides it. Narrows the box until this decides all of its packets.
    pub(crate) fn decider_within(&mut self, within: &mut PacketBox) -> Option<Place>
        requires { IsBox within.old }
        ensures part { Narrows within.old within.new }
        ensures rules { self.new ≡ self.old }
        ensures decider { (p : Packet) → IsIn within.new p → IsRuleDecider self.old p New result }
        ensures only { (p : Packet) → IsIn within.new p → (other : Option Place) → IsRuleDecider self.old p New other → other ≡ result }
    {
        self.rules.meet_within(&mut self.met, within, CtState::New)
    }
}
