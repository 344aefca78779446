//! Packets that traverse the chains together: a packet, or the packets of a box. A box is narrowed at each
//! rule until the rule no longer distinguishes its packets. Hence all of them make the same traversal.

ghost use Rattle.std.specs.Prelude.{◌≡◌, ◌<◌, ◌≤◌, ℕ, List, length, IfSome};
ghost use Rattle.host_net.specs.declared.packet.Packet.{Packet};
ghost use Rattle.host_net.specs.declared.packet.CtState.{CtState};
ghost use Rattle.ipt_rules.specs.Matching.{matches};
ghost use Rattle.ipt_rules.specs.Chain.{Chain, rules_of};
ghost use Rattle.ipt_rules.specs.ChainTable.{rule_count};
ghost use Rattle.ipt_rules.specs.inner.Next.{IsNext};

use crate::next::{index_at, next_rule};
use crate::rule::Rule;
use header_space::PacketBox;
use host_net::{CtState, Packet, TupleSpaceIndex};

/// Packets that traverse the chains together.
pub(crate) trait Packets: Sized {
    ghost contains: { Self → Packet → Type 0 };

    ghost can_traverse: { Self → List Chain → Type 0 };

    ghost narrows: { Self → Self → Type 0 };

    /// Returns the position of the next rule of a chain, from `from` on, that may match the packets. The
    /// skipped rules do not match.
    fn next_rule(&self, rules: &[Rule], chain: u16, from: usize) -> Option<usize>
        requires { (chains : List Chain) × can_traverse self.now chains × (rules.now ≡ rules_of chains chain) × (rule_count chains ≤ 1000000) }
        ensures next { (p : Packet) (state : CtState) → contains self.now p → IsNext (matches p state) rules.now from result }
        ensures within { IfSome result (λ at. (from ≤ at) × (at < length rules.now)) };

    /// Whether a rule matches the packets. Narrows them until the answer is the same for all of them.
    fn match_rule(&mut self, rule: &Rule, state: CtState) -> bool
        requires { (chains : List Chain) × can_traverse self.old chains }
        ensures part { narrows self.old self.new }
        ensures alike { (p : Packet) → contains self.new p → matches p state rule.now ≡ result };

    ghost narrows_self: { (x : Self) (chains : List Chain) → can_traverse x chains → narrows x x };

    ghost narrows_then: { (x y z : Self) → narrows x y → narrows y z → narrows x z };

    ghost narrows_in: { (x y : Self) (p : Packet) → narrows x y → contains y p → contains x p };

    ghost still_can: { (x y : Self) (chains : List Chain) → narrows x y → can_traverse x chains → can_traverse y chains };
}

/// A packet. If chains have indexes, rules whose prefixes do not cover the packet's addresses are skipped.
#[derive(Drop)]
pub(crate) struct OnePacket<'a> {
    pub(crate) packet: &'a Packet,
    pub(crate) indexes: &'a [TupleSpaceIndex],
}

impl<'a> Packets for OnePacket<'a> {
    ghost use Rattle.std.proofs.Common.{refl, subst, sym, ◌∙◌};
    ghost use Rattle.ipt_rules.specs.inner.Next.{AreIndexes};

    ghost contains = { λ x p. p ≡ x.packet.now };

    ghost can_traverse = { λ x chains. AreIndexes x.indexes.now chains };

    ghost narrows = { λ x y. (y.packet.now ≡ x.packet.now) × (y.indexes.now ≡ x.indexes.now) };

    ghost narrows_self = { λ x chains can. (refl, refl) };

    ghost narrows_then = { λ x y z one two. (two.0 ∙ one.0, two.1 ∙ one.1) };

    ghost narrows_in = { λ x y p narrows is. is ∙ narrows.0 };

    ghost still_can = { λ x y chains narrows can. subst (λ i. AreIndexes i chains) (sym narrows.1) can };

    fn next_rule(&self, rules: &[Rule], chain: u16, from: usize) -> Option<usize> {
        next_rule(index_at(self.indexes, chain), rules, from, self.packet)
    }

    fn match_rule(&mut self, rule: &Rule, state: CtState) -> bool {
        rule.matches(self.packet, state)
    }
}

impl Packets for PacketBox {
    ghost use Rattle.header_space.specs.Boxes.{IsBox, IsIn, Narrows};
    ghost use Rattle.header_space.proofs.BoxLaws.{narrows_in, narrows_not, narrows_then};

    ghost contains = { IsIn };

    ghost can_traverse = { λ b chains. IsBox b };

    ghost narrows = { Narrows };

    ghost narrows_self = { λ b chains is. narrows_not b is };

    ghost narrows_then = { narrows_then };

    ghost narrows_in = { narrows_in };

    ghost still_can = { λ b part chains narrows is. narrows.is_box };

    fn next_rule(&self, rules: &[Rule], _chain: u16, from: usize) -> Option<usize> {
        if from < rules.len() { Some(from) } else { None }
    }

    fn match_rule(&mut self, rule: &Rule, state: CtState) -> bool {
        rule.matches_within(self, state)
    }
}
