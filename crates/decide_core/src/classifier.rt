//! Classifiers: they determine the rule that decides the packets of a box.

ghost use Rattle.std.specs.Prelude.{◌≡◌, ◌↔◌, ◌<◌, true, IsTrue, IfOk, IfSome, Option};
ghost use Rattle.host_net.specs.declared.packet.Packet.{Packet};
ghost use Rattle.host_net.specs.declared.packet.CtState.TheVariants.{New};
ghost use Rattle.header_space.specs.Boxes.{IsBox, IsIn, Narrows};
ghost use Rattle.ipt_rules.specs.declared.marks.Place.{Place};
ghost use Rattle.rules_space.specs.Rules.{filter_of};
ghost use Rattle.rules_space.specs.RulesView.{rules_of};
ghost use Rattle.decide_core.specs.Deciders.{IsDecider};
ghost use Rattle.decide_core.specs.inner.Classifying.{HasRule, chain_count, count_in, entry_place, rules_by};

use crate::ruleset_walk::RulesetWalk;
use header_space::PacketBox;
use host_net::CtState;
use ipt_rules::Place;
use ofp_rules::Table;
use rules_space::RulesRef;
use std::alloc::{AllocError, Global};

/// The rules of a rule set or flow table, as a classifier of packets.
#[derive(Drop)]
pub(crate) enum Classifier<'a> {
    Ipt(RulesetWalk<'a>),
    Ofp(&'a Table),
}

impl<'a> Classifier<'a> {
    pub(crate) fn new(alloc: Global, text: &RulesRef<'a>) -> Result<Classifier<'a>, AllocError>
        ensures { IfOk result (λ classifier. rules_by classifier ≡ rules_of text.now) }
    {
        match text {
            RulesRef::Ipt(rules) => {
                let walk = RulesetWalk::new(alloc, rules)?;
                Ok(Classifier::Ipt(walk))
            }
            RulesRef::Ofp(table) => Ok(Classifier::Ofp(table)),
        }
    }

    /// Returns the rule set or flow table.
    fn text(&self) -> RulesRef<'a>
        ensures { rules_of result ≡ rules_by self.now }
    {
        match self {
            Classifier::Ipt(walk) => RulesRef::Ipt(walk.rules()),
            Classifier::Ofp(table) => RulesRef::Ofp(table),
        }
    }

    /// Returns the number of chains. A flow table counts as one chain.
    pub(crate) fn chains(&self) -> u16
        ensures { result ≡ chain_count (rules_by self.now) }
    {
        match self {
            Classifier::Ipt(walk) => walk.rules().chains(),
            Classifier::Ofp(_) => 1,
        }
    }

    /// Returns the number of rules of a chain.
    pub(crate) fn count_in(&self, chain: u16) -> u32
        requires { chain < chain_count (rules_by self.now) }
        ensures { result ≡ count_in (rules_by self.now) chain }
    {
        match self {
            Classifier::Ipt(walk) => walk.count_in(chain),
            Classifier::Ofp(table) => table.len(),
        }
    }

    /// Whether the packets of a box pass as new packets. Narrows the box until this is the result for all of
    /// its packets.
    pub(crate) fn passes_within(&self, within: &mut PacketBox) -> bool
        requires { IsBox within.old }
        ensures part { Narrows within.old within.new }
        ensures passes { (p : Packet) → IsIn within.new p → (IsTrue result ↔ filter_of (rules_by self.now) New p true) }
    {
        let text = self.text();
        // These calls establish that each packet of the box passes or does not.
        let _count = text.rules();
        let _greatest = within.last();
        let passes = text.passes_within(within, CtState::New);
        passes
    }

    /// Returns the place of the rule that decides the least packet of a box as a new packet, or `None` if the
    /// default decides it. Narrows the box until this decides all of its packets.
    pub(crate) fn decider_within(&mut self, within: &mut PacketBox) -> Option<Place>
        requires { IsBox within.old }
        ensures part { Narrows within.old within.new }
        ensures rules { rules_by self.new ≡ rules_by self.old }
        ensures decider { (p : Packet) → IsIn within.new p → IsDecider (rules_by self.old) p result }
        ensures only { (p : Packet) → IsIn within.new p → (other : Option Place) → IsDecider (rules_by self.old) p other → other ≡ result }
        ensures there { IfSome result (λ place. HasRule (rules_by self.old) place) }
    {
        match self {
            Classifier::Ipt(walk) => walk.decider_within(within),
            Classifier::Ofp(table) => entry_place(table.decider_within(within)),
        }
    }
}

/// Returns the place of an entry.
fn entry_place(entry: Option<u32>) -> Option<Place>
    ensures { result ≡ entry_place entry }
{
    match entry {
        Some(rule) => Some(Place { chain: 0, rule }),
        None => None,
    }
}
