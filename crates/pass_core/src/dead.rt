//! The rules of a rule set that no packet that enters FORWARD meets.

ghost use Rattle.std.specs.Prelude.{◌≡◌, ◌+◌, ◌<◌, length, IfOk, OnOk};
ghost use Rattle.host_net.specs.declared.packet.Packet.{Packet};
ghost use Rattle.header_space.specs.Boxes.{IsIn, every_packet};
ghost use Rattle.pass_core.specs.Dead.{AreDead, AreRemovable};
ghost use Rattle.pass_core.specs.inner.Meeting.{AreForwardMarked, IsUnmarked, MarksMore};
ghost use Rattle.pass_core.specs.inner.Places.{AreBefore};

use crate::met_rules::MetRules;
use crate::met_sets::mark_by_sets;
use crate::sample_packets::mark_by_samples;
use header_space::{PacketBox, visit_all};
use ipt_rules::{INPUT, Marks, OUTPUT, Place, Ruleset};
use std::alloc::{AllocError, Global};

/// Returns the places of the dead rules: no packet that enters `FORWARD` meets them, new or established. They
/// are in ascending order, by chain and then by rule.
///
/// Only rules of `FORWARD` and of user chains are listed: no packet that enters `FORWARD` meets a rule of `INPUT`
/// or of `OUTPUT`. If no jump from `FORWARD` leads to a user chain, all of its rules are dead, even if `INPUT` or
/// `OUTPUT` uses the chain: its rules may count packets that do not enter `FORWARD`.
///
/// Costs two traversals for each rule. If these do not meet all rules, and sets of packets are not used, it costs two
/// traversals for each box of packets that the rules distinguish.
pub fn dead_rules(alloc: Global, rules: &Ruleset) -> Result<Vec<Place>, AllocError>
    ensures dead { IfOk result (λ places. AreDead rules.now places.items) }
    ensures removable { IfOk result (λ places. AreRemovable rules.now places.items) }
{
    // This call establishes that each chain has one outcome for a packet.
    let _count = rules.rules();
    let mut met = MetRules::none(alloc, rules)?;
    mark_met(alloc, &mut met)?;
    let places = unmarked(alloc, rules, met.marks())?;
    Ok(places)
}

/// Marks all rules of `FORWARD` and of user chains that packets meet: by one packet for each rule. If this leaves rules
/// unmarked, by sets of packets, or by a search if there are too many rules or the sets are too large.
fn mark_met(alloc: Global, met: &mut MetRules<'_>) -> Result<(), AllocError>
    ensures more { OnOk result (MarksMore every_packet met.old met.new) }
    ensures known { OnOk result ((p : Packet) → IsIn every_packet p → AreForwardMarked met.new p) }
{
    mark_by_samples(alloc, met)?;
    let left = unmarked(alloc, met.rules(), met.marks())?;
    if left.is_empty() {
        return Ok(());
    }
    let all = mark_by_sets(alloc, met)?;
    if all {
        return Ok(());
    }
    visit_all(alloc, met, PacketBox::every())?;
    Ok(())
}

/// Returns the places of the unmarked rules, in all chains except `INPUT` and `OUTPUT`.
fn unmarked(alloc: Global, rules: &Ruleset, marks: &Marks) -> Result<Vec<Place>, AllocError>
    ensures { IfOk result (λ places. AreBefore (IsUnmarked rules.now marks.now) (record { chain = length rules.now; rule = 0 }) places.items) }
{
    let mut places = Vec::new(alloc);
    for chain in 0..rules.chains() {
        push_unmarked(&mut places, rules, marks, chain)?;
    }
    Ok(places)
}

/// Appends the places of the unmarked rules of a chain, unless it is `INPUT` or `OUTPUT`.
fn push_unmarked(
    places: &mut Vec<Place>,
    rules: &Ruleset,
    marks: &Marks,
    chain: u16,
) -> Result<(), AllocError>
    requires there { chain < length rules.now }
    requires before { AreBefore (IsUnmarked rules.now marks.now) (record { chain = chain; rule = 0 }) places.old.items }
    ensures { IfOk result (λ _. AreBefore (IsUnmarked rules.now marks.now) (record { chain = chain + 1; rule = 0 }) places.new.items) }
{
    if chain == INPUT || chain == OUTPUT {
        return Ok(());
    }
    // This call establishes that the number of rules fits `u32`.
    let _count = rules.rules();
    let count = rules.rules_in(chain).len();
    for rule in 0..count {
        let place = Place {
            chain,
            rule: rule as u32,
        };
        if !marks.is_marked(place) {
            places.push(place)?;
        }
    }
    Ok(())
}
