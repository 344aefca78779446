//! The rules of a rule set that packets meet, marked by sets of packets.

ghost use Rattle.std.specs.Prelude.{◌≡◌, ◌<◌, length, true, IsTrue, IfOk};
ghost use Rattle.std.specs.List.{All};
ghost use Rattle.host_net.specs.declared.packet.Packet.{Packet};
ghost use Rattle.header_space.specs.Boxes.{IsIn, every_packet};
ghost use Rattle.ipt_rules.specs.declared.marks.Place.{Place};
ghost use Rattle.ipt_rules.specs.Marks.{is_marked};
ghost use Rattle.ipt_rules.specs.Meets.{IsMet};
ghost use Rattle.packet_set.specs.Nodes.{has};
ghost use Rattle.rules_set.specs.Meeting.{IsListed};
ghost use Rattle.pass_core.specs.inner.Meeting.{AreMarked, IsSoundSet, MarksMore};

use crate::met_rules::MetRules;
use crate::pair_services::rule_count;
use header_space::{PacketBox, Visitor};
use host_net::CtState;
use ipt_rules::ChainsRef;
use packet_set::Diagrams;
use rules_set::{MeetRefusal, MetSet, met_by};
use std::alloc::{AllocError, Global};

/// The maximum number of rules of which the packets that meet them are computed as sets.
const RULE_LIMIT: usize = 1 << 9;

/// Marks the rules that packets meet in each state. Returns whether all of them are marked: not if there are more than
/// 512 rules, or if the sets of packets are too large.
pub(crate) fn mark_by_sets(alloc: Global, met: &mut MetRules<'_>) -> Result<bool, AllocError>
    ensures more { MarksMore every_packet met.old met.new }
    ensures known { IfOk result (λ all. all ≡ true → (p : Packet) → IsIn every_packet p → AreMarked met.new p) }
{
    let chains = met.rules().as_chains();
    if rule_count(&chains) > RULE_LIMIT {
        return Ok(false);
    }
    let new = mark_state(alloc, met, &chains, CtState::New)?;
    if !new {
        return Ok(false);
    }
    let established = mark_state(alloc, met, &chains, CtState::Established)?;
    Ok(established)
}

/// Marks the rules that packets meet in a state. Returns whether all of them are marked.
fn mark_state(
    alloc: Global,
    met: &mut MetRules<'_>,
    chains: &ChainsRef<'_>,
    state: CtState,
) -> Result<bool, AllocError>
    requires { met.old.chains ≡ chains.now }
    ensures more { MarksMore every_packet met.old met.new }
    ensures known { IfOk result (λ all. all ≡ true → (p : Packet) → IsIn every_packet p → (place : Place) → IsMet chains.now p state place → IsTrue (is_marked met.new.marks place)) }
{
    let mut diagrams = Diagrams::new(alloc)?;
    let incoming = diagrams.every();
    match met_by(
        alloc,
        &mut diagrams,
        chains,
        state,
        incoming,
        &PacketBox::every(),
    ) {
        Ok(found) => {
            mark_sets(met, &diagrams, &found.sets);
            Ok(true)
        }
        Err(MeetRefusal::TooMany) => Ok(false),
        Err(MeetRefusal::Memory) => Err(AllocError),
    }
}

/// Marks the rules of all sets that have packets.
fn mark_sets(met: &mut MetRules<'_>, diagrams: &Diagrams, sets: &[MetSet])
    requires sets { All (IsSoundSet met.old.chains diagrams.now) sets.now }
    ensures more { MarksMore every_packet met.old met.new }
    ensures marked { (p : Packet) → IsIn every_packet p → (place : Place) → IsListed diagrams.now sets.now p place → IsTrue (is_marked met.new.marks place) }
{
    for set in sets {
        mark_set(met, diagrams, set);
    }
}

/// Marks the rules that a packet of a set meets, unless the rule of the set is marked or the set is empty.
fn mark_set(met: &mut MetRules<'_>, diagrams: &Diagrams, set: &MetSet)
    requires { IsSoundSet met.old.chains diagrams.now set.now }
    ensures more { MarksMore every_packet met.old met.new }
    ensures marked { (p : Packet) → IsIn every_packet p → has diagrams.now set.now.set p ≡ true → IsTrue (is_marked met.new.marks set.now.place) }
{
    if met.marks().is_marked(set.place) {
        return;
    }
    let Some(packet) = diagrams.member(set.set, &PacketBox::every()) else {
        return;
    };
    let mut within = PacketBox {
        least: packet,
        greatest: packet,
    };
    met.visit(&mut within);
}
