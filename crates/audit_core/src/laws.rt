//! Laws that the audit depends on, and what its findings state about rules that were written for a policy.
//! They depend on the definitions only.

ghost use Rattle.std.specs.Prelude.{◌≡◌, Bool, List};
ghost use Rattle.host_net.specs.declared.packet.Packet.{Packet};
ghost use Rattle.host_net.specs.declared.packet.CtState.{CtState};
ghost use Rattle.host_net.specs.Packet.{IsPacket, swap_of};
ghost use Rattle.flow_set.specs.FlowSet.{IsSubset};
ghost use Rattle.pkt_core.specs.FlowPolicy.{flow_of, permits, permits_reply_to};
ghost use Rattle.ofp_rules.specs.declared.entry.Entry.{Entry};
ghost use Rattle.audit_core.specs.declared.finding.Finding.{Finding};
ghost use Rattle.audit_core.specs.declared.finding.Finding.TheVariants.{Equal};
ghost use Rattle.audit_core.specs.inner.Agreement.{alone, after_swap};
ghost use Rattle.audit_core.specs.Cuts.{Cuts, cuts_between};
ghost use Rattle.audit_core.specs.inner.Cuts.{AreOneClass};
ghost use Rattle.audit_core.specs.inner.Findings.{IsFinding};
ghost use Rattle.audit_core.specs.Places.{IsClassPacket, representatives_of};
ghost use Rattle.rules_space.specs.Rules.{Entries, filter_of};
ghost use Rattle.rules_space.specs.Verdicts.{GivesOne};
ghost use Rattle.audit_core.specs.Sides.{Agree, AreEquivalent, AreSafe, Sides};
ghost use Rattle.audit_core.specs.inner.Sides.{AgreeAlways, AgreeShortly};

/// Rules that agree with a policy on the three short lists at each packet agree with it on every list of
/// events. For a flow table, which is stateless, the first two lists suffice.
pub fn short_lists_suffice()
    ensures each { (sides : Sides) → GivesOne (filter_of sides.rules) → IsSubset sides.policy.stateful sides.policy.permitted →
        ((packet : Packet) → IsPacket packet → AgreeShortly sides packet) → AgreeAlways sides }
    ensures table { (sides : Sides) (entries : List Entry) → sides.rules ≡ Entries entries → GivesOne (filter_of sides.rules) →
        IsSubset sides.policy.stateful sides.policy.permitted →
        ((packet : Packet) → IsPacket packet → Agree sides (alone packet) × Agree sides (after_swap packet)) → AgreeAlways sides }
{}

/// Two packets of one class belong to the same flow by its services, or both belong to no flow. They have the
/// same verdicts, and their swaps are in one class. Each packet is in one class with a packet whose fields
/// are the representatives of its classes.
pub fn classes_are_uniform()
    ensures flow { (sides : Sides) (p q : Packet) → IsPacket p → IsPacket q → AreOneClass (cuts_between sides) p q →
        flow_of sides.policy.site.hosts p ≡ flow_of sides.policy.site.hosts q }
    ensures permitted { (sides : Sides) (p q : Packet) → IsPacket p → IsPacket q → AreOneClass (cuts_between sides) p q →
        permits sides.policy p ≡ permits sides.policy q }
    ensures stateful { (sides : Sides) (p q : Packet) → IsPacket p → IsPacket q → AreOneClass (cuts_between sides) p q →
        permits_reply_to sides.policy p ≡ permits_reply_to sides.policy q }
    ensures verdict { (sides : Sides) (p q : Packet) (state : CtState) (passes : Bool) → IsPacket p → IsPacket q → AreOneClass (cuts_between sides) p q →
        filter_of sides.rules state p passes → filter_of sides.rules state q passes }
    ensures swaps { (cuts : Cuts) (p q : Packet) → AreOneClass cuts p q → AreOneClass cuts (swap_of p) (swap_of q) }
    ensures class { (sides : Sides) (p : Packet) → IsPacket p →
        (q : Packet) × IsPacket q × IsClassPacket (representatives_of (cuts_between sides)) q × AreOneClass (cuts_between sides) q p }
{}

/// Any finding for rules that forward what a policy expects is `Equal`, and rules whose finding is `Equal`
/// forward what the policy expects. Such rules are safe with any connection tracking.
pub fn equal_is_expected()
    ensures equal { (sides : Sides) (finding : Finding) → AreEquivalent sides → IsFinding sides finding → finding ≡ Equal }
    ensures expected { (sides : Sides) → GivesOne (filter_of sides.rules) → IsFinding sides Equal → AreEquivalent sides }
    ensures safe { (sides : Sides) → AreEquivalent sides → AreSafe sides }
{}
