//! The two sides as they are compared for the packets of a box. Rules that decide none of these packets may
//! be omitted.

ghost use Rattle.std.specs.Prelude.{◌≡◌, ◌↔◌, ◌≤◌, ◌<◌, IsTrue, None, IfOk, IfSome};
ghost use Rattle.host_net.specs.declared.packet.Packet.{Packet};
ghost use Rattle.header_space.specs.Boxes.{IsBox, IsIn, Narrows};
ghost use Rattle.header_space.specs.Cuts.{IsCutOf};
ghost use Rattle.pkt_core.specs.inner.FlowPolicy.{IsFlowPolicy};
ghost use Rattle.pkt_core.specs.FlowPolicy.{permits};
ghost use Rattle.audit_core.specs.inner.Faults.{HasFault, IsFault, expected_at, is_asked};
ghost use Rattle.rules_space.specs.Verdicts.{GivesOne, HaveSameVerdicts};
ghost use Rattle.policy_space.specs.inner.Flows.{HaveFlow};
ghost use Rattle.audit_core.specs.inner.Parts.{HaveSameFaults, IsPartOf};
ghost use Rattle.rules_space.specs.Rules.{Chains, filter_of};
ghost use Rattle.rules_space.specs.RulesView.{rules_of};
ghost use Rattle.audit_core.specs.Sides.{sides_of};

use crate::fault::state_in;
use crate::kind::Kind;
use flow_set::Flow;
use header_space::{Cut, PacketBox};
use host_net::CtState;
use pkt_core::FlowPolicy;
use policy_space::{answers_are_of_within_flow, flow_within, is_of_within_flow};
use rules_space::{HeldRules, RulesRef};
use std::alloc::{AllocError, Global};
use std::marker::Model;

/// The two sides, with all rules or with the rules of a slice.
#[derive(Drop)]
pub(crate) struct Part<'a> {
    policy: &'a FlowPolicy<'a>,
    rules: HeldRules<'a>,
}

impl<'a> Model for Part<'a> {
    ghost use Rattle.audit_core.specs.Sides.{Sides, sides_of};

    ghost Value = { Sides };

    ghost view = { λ s. sides_of s.policy.now s.rules };
}

impl<'a> Part<'a> {
    /// Returns the sides with all rules.
    pub(crate) fn whole(policy: &'a FlowPolicy<'a>, rules: RulesRef<'a>) -> Part<'a>
        ensures sides { result ≡ sides_of policy.now (rules_of rules.entry) }
        ensures policy { IsFlowPolicy policy.now }
        ensures gives { GivesOne (filter_of (rules_of rules.entry)) }
    {
        // These calls make known the invariant of a policy, and that a packet passes or does not.
        let (_count, _rules) = (policy.count(), rules.rules());
        Part {
            policy,
            rules: HeldRules::whole(rules),
        }
    }

    /// Returns the same sides, with a borrowed slice of the rules.
    pub(crate) fn by_ref(&self) -> Part<'_>
        ensures { result ≡ self.now }
    {
        Part {
            policy: self.policy,
            rules: self.rules.by_ref(),
        }
    }

    /// States that the rules have one verdict on each packet.
    pub(crate) fn gives_one(&self)
        ensures { GivesOne (filter_of self.now.rules) }
    {
        self.rules.gives_one();
    }

    /// Returns the sides with the slice of the rules for the packets of a box, if it is worth its cost.
    pub(crate) fn restrict(
        &self,
        alloc: Global,
        within: &PacketBox,
    ) -> Result<Option<Part<'a>>, AllocError>
        ensures faults { IfOk result (λ part. IfSome part (HaveSameFaults within.now self.now)) }
        ensures part { IfOk result (λ part. IfSome part (IsPartOf within.now self.now)) }
    {
        match self.rules.slice(alloc, within)? {
            None => Ok(None),
            Some(rules) => Ok(Some(Part {
                policy: self.policy,
                rules,
            })),
        }
    }

    /// Returns the cut of a box at which the owner of its sources or of its destinations changes. A box whose
    /// sources no host owns is not cut: its packets belong to no flow.
    pub(crate) fn cut(&self, within: &PacketBox) -> Option<Cut>
        ensures { IfSome result (IsCutOf within.now) }
    {
        let hosts = self.policy.hosts();
        let src = hosts.boundary_between(within.least.src, within.greatest.src);
        if src.is_none() && hosts.owner(within.least.src).is_none() {
            return None;
        }
        let dst = hosts.boundary_between(within.least.dst, within.greatest.dst);
        longer_cut(within, src, dst)
    }

    /// Whether the rules forward the packets of a box in a state.
    pub(crate) fn passes_within(&self, within: &mut PacketBox, state: CtState) -> bool
        requires { IsBox within.old }
        ensures part { Narrows within.old within.new }
        ensures passes { (p : Packet) → IsIn within.new p → filter_of self.now.rules state p result }
    {
        self.rules.passes_within(within, state)
    }

    /// Returns the flow of the packets of a box.
    pub(crate) fn flow_within(&self, within: &mut PacketBox) -> Option<Flow>
        requires { IsBox within.old }
        ensures part { Narrows within.old within.new }
        ensures flow { HaveFlow self.now.policy.site.hosts within.new result }
    {
        flow_within(self.policy.hosts(), within)
    }

    /// Whether the packets of a box are faults of some kind.
    pub(crate) fn has_fault(&self, flow: Option<Flow>, within: &mut PacketBox) -> bool
        requires is_box { IsBox within.old }
        requires flow { HaveFlow self.now.policy.site.hosts within.old flow }
        ensures part { Narrows within.old within.new }
        ensures alike { (p : Packet) → IsIn within.new p → (IsTrue result ↔ HasFault self.now None p) }
    {
        if self.is_fault(Kind::Alone, flow, within) {
            return true;
        }
        if self.is_fault(Kind::AfterSwap, flow, within) {
            return true;
        }
        self.is_fault(Kind::AfterBoth, flow, within)
    }

    /// Whether the packets of a box are faults of that kind.
    pub(crate) fn is_fault(&self, kind: Kind, flow: Option<Flow>, within: &mut PacketBox) -> bool
        requires is_box { IsBox within.old }
        requires flow { HaveFlow self.now.policy.site.hosts within.old flow }
        ensures part { Narrows within.old within.new }
        ensures alike { (p : Packet) → IsIn within.new p → (IsTrue result ↔ IsFault self.now kind p) }
    {
        self.gives_one();
        if !self.is_asked(kind, flow, within) {
            return false;
        }
        let expected = self.expects(kind, flow, within);
        let passes = self.passes_within(within, state_in(kind));
        // This call makes known that packets of a box are packets.
        let _last = within.last();
        passes != expected
    }

    /// Whether the condition of that kind of list applies to the packets of a box.
    fn is_asked(&self, kind: Kind, flow: Option<Flow>, within: &mut PacketBox) -> bool
        requires is_box { IsBox within.old }
        requires flow { HaveFlow self.now.policy.site.hosts within.old flow }
        ensures part { Narrows within.old within.new }
        ensures alike { (p : Packet) → IsIn within.new p → is_asked (permits self.now.policy) kind p ≡ result }
    {
        match kind {
            Kind::Alone => true,
            Kind::AfterSwap => {
                answers_are_of_within_flow(self.policy, self.policy.permitted(), flow, within)
            }
            Kind::AfterBoth => self.permits_within(flow, within),
        }
    }

    /// Whether the policy expects that the packets of a box pass at the end of their lists of that kind.
    pub(crate) fn expects(&self, kind: Kind, flow: Option<Flow>, within: &mut PacketBox) -> bool
        requires is_box { IsBox within.old }
        requires flow { HaveFlow self.now.policy.site.hosts within.old flow }
        ensures part { Narrows within.old within.new }
        ensures alike { (p : Packet) → IsIn within.new p → expected_at self.now kind p ≡ result }
    {
        let permits = self.permits_within(flow, within);
        match kind {
            Kind::Alone => permits,
            Kind::AfterSwap | Kind::AfterBoth => {
                permits
                    || answers_are_of_within_flow(self.policy, self.policy.stateful(), flow, within)
            }
        }
    }

    fn permits_within(&self, flow: Option<Flow>, within: &mut PacketBox) -> bool
        requires is_box { IsBox within.old }
        requires flow { HaveFlow self.now.policy.site.hosts within.old flow }
        ensures part { Narrows within.old within.new }
        ensures alike { (p : Packet) → IsIn within.new p → permits self.now.policy p ≡ result }
    {
        is_of_within_flow(self.policy, self.policy.permitted(), flow, within)
    }
}

/// Returns the cut of the field that has more addresses, if both fields can be cut.
fn longer_cut(within: &PacketBox, src: Option<u32>, dst: Option<u32>) -> Option<Cut>
    requires src { IfSome src (λ n. (within.now.least.src ≤ n) × (n < within.now.greatest.src)) }
    requires dst { IfSome dst (λ n. (within.now.least.dst ≤ n) × (n < within.now.greatest.dst)) }
    ensures { IfSome result (IsCutOf within.now) }
{
    match (src, dst) {
        (None, None) => None,
        (Some(src), None) => Some(Cut::Src(src)),
        (None, Some(dst)) => Some(Cut::Dst(dst)),
        (Some(src), Some(dst)) => {
            if is_wider(within) {
                Some(Cut::Dst(dst))
            } else {
                Some(Cut::Src(src))
            }
        }
    }
}

/// Whether a box has more destinations than sources.
fn is_wider(within: &PacketBox) -> bool {
    let (least, greatest) = (within.least, within.greatest);
    greatest.dst.saturating_sub(least.dst) > greatest.src.saturating_sub(least.src)
}
