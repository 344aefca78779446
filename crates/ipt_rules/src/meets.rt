//! The rules that packets meet in a rule set, and the rule that decides.

ghost use Rattle.std.specs.Prelude.{◌≡◌, ◌⊎◌, ◌↔◌, ◌<◌, ◌≤◌, length, Bool, IsTrue, Option};
ghost use Rattle.host_net.specs.declared.packet.Packet.{Packet};
ghost use Rattle.host_net.specs.declared.packet.Verdict.{Verdict};
ghost use Rattle.header_space.specs.Boxes.{IsBox, IsIn, Narrows};
ghost use Rattle.ipt_rules.specs.declared.marks.Place.{Place};
ghost use Rattle.ipt_rules.specs.ChainTable.{rule_count};
ghost use Rattle.ipt_rules.specs.DeadRules.{AreUnmarked, without_places};
ghost use Rattle.ipt_rules.specs.Marks.{AreMarksOf, is_marked};
ghost use Rattle.ipt_rules.specs.Meets.{IsMet, IsRuleDecider, decided};
ghost use Rattle.ipt_rules.specs.inner.OneOutcome.{HasVerdict};
ghost use Rattle.ipt_rules.specs.inner.Ranks.{HasTopologicalOrder};

use crate::chain::Chain;
use crate::marks::{Marks, Place};
use crate::ruleset::{FORWARD, Ruleset};
use crate::walk::decider;
use header_space::PacketBox;
use host_net::CtState;

impl Ruleset {
    /// Marks the rules that the least packet of a box meets in its traversal of `FORWARD` in this state.
    /// Narrows the box until all of its packets meet the same rules. Returns the place of the rule that
    /// decides, or `None` if the policy decides.
    pub fn meet_within(
        &self,
        met: &mut Marks,
        within: &mut PacketBox,
        state: CtState,
    ) -> Option<Place>
        requires is_box { IsBox within.old }
        requires marks { AreMarksOf met.old self.now }
        ensures part { Narrows within.old within.new }
        ensures marks { AreMarksOf met.new self.now }
        ensures marked { (p : Packet) → IsIn within.new p → (place : Place) → (IsTrue (is_marked met.new place) ↔ (IsTrue (is_marked met.old place) ⊎ IsMet self.now p state place)) }
        ensures decider { (p : Packet) → IsIn within.new p → IsRuleDecider self.now p state result }
        // Nothing else decides, and the verdict is the verdict of the decider.
        ensures only { (p : Packet) → IsIn within.new p → (other : Option Place) → IsRuleDecider self.now p state other → other ≡ result }
        ensures verdict { (p : Packet) → IsIn within.new p → HasVerdict self.now p state (decided self.now result) }
        // The verdicts are unchanged without rules that stay unmarked.
        ensures unmarked { (p : Packet) → IsIn within.new p → (places : Place → Bool) → AreUnmarked met.new places → (v : Verdict) → (HasVerdict self.now p state v ↔ HasVerdict (without_places places self.now) p state v) }
    {
        let chains = self.chains.as_slice();
        meet_forward(chains, met, within, state)
    }
}

/// Marks the rules that the packets of a box meet, and returns their decider.
fn meet_forward(
    chains: &[Chain],
    met: &mut Marks,
    within: &mut PacketBox,
    state: CtState,
) -> Option<Place>
    requires forward { 1 < length chains.now }
    requires few_chains { length chains.now ≤ 4096 }
    requires few_rules { rule_count chains.now ≤ 1000000 }
    requires topological_order { HasTopologicalOrder chains.now }
    requires is_box { IsBox within.old }
    requires marks { AreMarksOf met.old chains.now }
    ensures part { Narrows within.old within.new }
    ensures marks { AreMarksOf met.new chains.now }
    ensures marked { (p : Packet) → IsIn within.new p → (place : Place) → (IsTrue (is_marked met.new place) ↔ (IsTrue (is_marked met.old place) ⊎ IsMet chains.now p state place)) }
    ensures decider { (p : Packet) → IsIn within.new p → IsRuleDecider chains.now p state result }
    ensures only { (p : Packet) → IsIn within.new p → (other : Option Place) → IsRuleDecider chains.now p state other → other ≡ result }
    ensures verdict { (p : Packet) → IsIn within.new p → HasVerdict chains.now p state (decided chains.now result) }
    // The verdicts are unchanged without rules that stay unmarked.
    ensures unmarked { (p : Packet) → IsIn within.new p → (places : Place → Bool) → AreUnmarked met.new places → (v : Verdict) → (HasVerdict chains.now p state v ↔ HasVerdict (without_places places chains.now) p state v) }
{
    decider(chains, FORWARD, within, state, met)
}
