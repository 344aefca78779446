//! The question whether rules accept a packet of a new connection, and the services of these packets.

ghost use Rattle.std.specs.Prelude.{◌≡◌, IfOk, IfSome};
ghost use Rattle.std.specs.List.{All};
ghost use Rattle.host_net.specs.declared.packet.Packet.{Packet};
ghost use Rattle.rules_space.specs.RulesView.{rules_of};
ghost use Rattle.header_space.specs.Boxes.{IsIn};
ghost use Rattle.header_space.specs.Owners.{GoesBetween, IsRange};
ghost use Rattle.pass_core.specs.NewPackets.{LetsPass};
ghost use Rattle.pass_core.specs.Passing.{ArePassing, AreRanges};

use crate::pair_services::{rule_count, services_of_chains};
use crate::pairs::hull;
use crate::passing::services_between;
use crate::passing_range::PassingRange;
use header_space::{AddressRange, Cut, PacketBox, Question, box_between};
use host_net::CtState;
use rules_space::{HeldRules, RulesRef};
use std::alloc::{AllocError, Global};
use std::marker::Model;

/// The question whether the rules accept a packet of a new connection.
#[derive(Drop)]
pub struct PassesNew<'a> {
    rules: HeldRules<'a>,
}

impl<'a> Model for PassesNew<'a> {
    ghost use Rattle.rules_space.specs.Rules.{AnyRules};

    ghost Value = { AnyRules };

    ghost view = { λ q. q.rules };
}

impl<'a> PassesNew<'a> {
    /// Returns the question for all rules of a rule set or flow table.
    pub fn whole(text: &RulesRef<'a>) -> PassesNew<'a>
        ensures { result ≡ rules_of text.now }
    {
        PassesNew {
            rules: HeldRules::whole(*text),
        }
    }
}

impl<'a> PassesNew<'a> {
    /// Returns the number of rules of the chains, or 0 for a flow table.
    pub(crate) fn rule_count(&self) -> usize {
        match self.rules.as_chains() {
            None => 0,
            Some(chains) => rule_count(&chains),
        }
    }

    /// Returns the services that the rules accept from one set of addresses to another, as ranges in ascending order:
    /// by sets of packets, or by a search if these need too many nodes.
    pub(crate) fn services(
        &self,
        alloc: Global,
        from: &[AddressRange],
        to: &[AddressRange],
    ) -> Result<Vec<PassingRange>, AllocError>
        requires from { AreRanges from.now }
        requires to { AreRanges to.now }
        ensures { IfOk result (λ ranges. ArePassing (LetsPass self.now) (GoesBetween from.now to.now) ranges.items) }
    {
        match self.services_by_sets(alloc, from, to)? {
            None => services_between(alloc, self, from, to),
            Some(ranges) => Ok(ranges),
        }
    }

    /// Returns the services that the rules accept from one set of addresses to another, by sets of packets. Returns
    /// `None` for a flow table, if the sets need too many nodes, or if there are no packets. Restricts the rules to
    /// packets between the addresses if this is worth the cost.
    fn services_by_sets(
        &self,
        alloc: Global,
        from: &[AddressRange],
        to: &[AddressRange],
    ) -> Result<Option<Vec<PassingRange>>, AllocError>
        requires from { All IsRange from.now }
        requires to { All IsRange to.now }
        ensures { IfOk result (λ ranges. IfSome ranges (λ ranges. ArePassing (LetsPass self.now) (GoesBetween from.now to.now) ranges.items)) }
    {
        let within = box_between(hull(from), hull(to));
        match self.restrict(alloc, &within)? {
            None => self.services_within(alloc, from, to, &within),
            Some(part) => part.services_within(alloc, from, to, &within),
        }
    }

    /// Returns the services as `services_by_sets` does. The rules are evaluated on the box only.
    fn services_within(
        &self,
        alloc: Global,
        from: &[AddressRange],
        to: &[AddressRange],
        within: &PacketBox,
    ) -> Result<Option<Vec<PassingRange>>, AllocError>
        requires { (p : Packet) → GoesBetween from.now to.now p → IsIn within.now p }
        ensures { IfOk result (λ ranges. IfSome ranges (λ ranges. ArePassing (LetsPass self.now) (GoesBetween from.now to.now) ranges.items)) }
    {
        // This call establishes that the rules decide each packet.
        self.rules.gives_one();
        match self.rules.as_chains() {
            None => Ok(None),
            Some(chains) => services_of_chains(alloc, &chains, from, to, within),
        }
    }
}

impl<'a> Question for PassesNew<'a> {
    ghost use Rattle.pass_core.specs.NewPackets.{LetsPass};

    ghost holds_of = { λ rules p. LetsPass rules p };

    fn ask(&self, within: &mut PacketBox) -> bool {
        let passes = self.rules.passes_within(within, CtState::New);
        // These calls establish that the rules decide each packet of the box.
        self.rules.gives_one();
        let _last = within.last();
        passes
    }

    fn restrict(
        &self,
        alloc: Global,
        within: &PacketBox,
    ) -> Result<Option<PassesNew<'a>>, AllocError> {
        match self.rules.slice(alloc, within)? {
            None => Ok(None),
            Some(rules) => Ok(Some(PassesNew { rules })),
        }
    }

    fn cut(&self, _within: &PacketBox) -> Option<Cut> {
        None
    }
}
