//! The rules that decide new packets between two sets of addresses, by sets of packets.

ghost use Rattle.std.specs.Prelude.{◌≡◌, ◌↔◌, ◌<◌, length, true, IsTrue, IfOk, IfSome, Some};
ghost use Rattle.std.specs.List.{All};
ghost use Rattle.host_net.specs.declared.packet.Packet.{Packet};
ghost use Rattle.host_net.specs.declared.packet.CtState.TheVariants.{New};
ghost use Rattle.header_space.specs.Boxes.{IsBox, IsIn};
ghost use Rattle.header_space.specs.Owners.{GoesBetween, IsRange};
ghost use Rattle.ipt_rules.specs.Semantics.{PassesChains};
ghost use Rattle.rules_set.specs.Meeting.{AreMet};
ghost use Rattle.rules_set.specs.Pairs.{ArePairSets};
ghost use Rattle.rules_space.specs.RulesView.{rules_of};
ghost use Rattle.rules_space.specs.Verdicts.{GivesOne};
ghost use Rattle.pass_core.specs.Services.{service_count};
ghost use Rattle.decide_core.specs.Deciders.{AreDeciders, IsInOne};
ghost use Rattle.decide_core.specs.ServiceRanges.{HasServiceBetween};
ghost use Rattle.decide_core.specs.inner.Classifying.{HasRule};
ghost use Rattle.decide_core.specs.inner.PairSets.{AddsNotes, AreMetBetween, ArePairDeciders, HasAny, IsNotedBy, IsSoundSet};

use crate::deciders::Deciders;
use crate::deciding::Deciding;
use crate::service_block::service_boxes;
use header_space::{AddressRange, PacketBox, box_between};
use host_net::CtState;
use ipt_rules::ChainsRef;
use packet_set::Diagrams;
use pass_core::hull;
use rules_set::{MeetRefusal, MetSet, MetSets, PairSets, met_by};
use rules_space::RulesRef;
use std::alloc::{AllocError, Global};

/// The maximum number of lines of rules for which sets are computed. Each pair goes through all rules, so a search is
/// faster for more.
const LINE_LIMIT: u32 = 600;

/// The rules that new packets meet between two sets of addresses if the packets pass, with the sets of these packets.
#[derive(Drop)]
pub(crate) struct PairDeciders {
    diagrams: Diagrams,
    met: MetSets,
    /// A range that has all sources.
    source: AddressRange,
    /// A range that has all destinations.
    target: AddressRange,
}

impl PairDeciders {
    /// Returns the rules that new packets meet from one set of addresses to another, or `None` for a flow table, or if
    /// there are too many rules, or the sets of packets are too large.
    pub(crate) fn of(
        alloc: Global,
        text: &RulesRef<'_>,
        from: &[AddressRange],
        to: &[AddressRange],
    ) -> Result<Option<PairDeciders>, AllocError>
        requires from { All IsRange from.now }
        requires to { All IsRange to.now }
        ensures { IfOk result (λ found. IfSome found (ArePairDeciders (rules_of text.now) from.now to.now)) }
    {
        // This call establishes that each packet has one verdict.
        let _rules = text.rules();
        let RulesRef::Ipt(rules) = text else {
            return Ok(None);
        };
        if rules.lines() > LINE_LIMIT {
            return Ok(None);
        }
        let (source, target) = (hull(from), hull(to));
        let within = box_between(source, target);
        let chains = rules.as_chains();
        // This call establishes that each chain has one outcome for a packet.
        let _count = chains.count();
        let mut diagrams = Diagrams::new(alloc)?;
        match met_between(alloc, &mut diagrams, &chains, from, to, &within) {
            Ok(met) => Ok(Some(PairDeciders {
                diagrams,
                met,
                source,
                target,
            })),
            Err(MeetRefusal::TooMany) => Ok(None),
            Err(MeetRefusal::Memory) => Err(AllocError),
        }
    }

    /// Returns the rules that decide new packets with services from `low` to `high` such that they pass.
    pub(crate) fn deciders(
        &self,
        alloc: Global,
        text: &RulesRef<'_>,
        from: &[AddressRange],
        to: &[AddressRange],
        low: u32,
        high: u32,
    ) -> Result<Deciders, AllocError>
        requires services { high < service_count }
        requires pair { ArePairDeciders (rules_of text.now) from.now to.now self.now }
        ensures { IfOk result (AreDeciders (rules_of text.now) (HasServiceBetween from.now to.now low high)) }
    {
        let boxes = service_boxes(alloc, self.source, self.target, low, high)?;
        let mut deciding = Deciding::none(alloc, text, true)?;
        note_sets(&mut deciding, &self.diagrams, &self.met, &boxes);
        let places = deciding.places(alloc)?;
        Ok(Deciders {
            places,
            by_default: deciding.by_default(),
        })
    }
}

/// Returns the rules that new packets meet from one set of addresses to another, if the packets pass. The rules are
/// evaluated on the box only.
fn met_between(
    alloc: Global,
    diagrams: &mut Diagrams,
    chains: &ChainsRef<'_>,
    from: &[AddressRange],
    to: &[AddressRange],
    within: &PacketBox,
) -> Result<MetSets, MeetRefusal>
    requires { (p : Packet) → GoesBetween from.now to.now p → IsIn within.now p }
    ensures { IfOk result (AreMetBetween chains.now from.now to.now within.now diagrams.new) }
{
    let sets = PairSets::of(alloc, diagrams, chains, CtState::New, from, to, within)?;
    met_by(alloc, diagrams, chains, CtState::New, sets.passing, within)
}

/// Marks the rules that decide packets of the boxes, by the sets of the packets that meet them.
fn note_sets(deciding: &mut Deciding<'_>, diagrams: &Diagrams, met: &MetSets, boxes: &[PacketBox])
    requires boxes { All IsBox boxes.now }
    requires sets { All (IsSoundSet deciding.old.rules diagrams.now) met.now.sets.items }
    requires returned { met.now.returned < length diagrams.now }
    ensures { AddsNotes (IsNotedBy diagrams.now met.now boxes.now) deciding.old deciding.new }
{
    for set in &met.sets {
        note_set(deciding, diagrams, set, boxes);
    }
    if has_any(diagrams, met.returned, boxes) {
        deciding.note_default();
    }
}

/// Marks a rule if its target is a verdict, and a packet of the boxes is in the set of packets that meet it.
fn note_set(deciding: &mut Deciding<'_>, diagrams: &Diagrams, set: &MetSet, boxes: &[PacketBox])
    requires boxes { All IsBox boxes.now }
    requires set { IsSoundSet deciding.old.rules diagrams.now set.now }
    ensures { AddsNotes (λ e. (e ≡ Some set.now.place) × (set.now.ends ≡ true) × HasAny diagrams.now set.now.set boxes.now) deciding.old deciding.new }
{
    if set.ends && has_any(diagrams, set.set, boxes) {
        deciding.note_place(set.place);
    }
}

/// Whether a packet of one of the boxes is in a set.
fn has_any(diagrams: &Diagrams, set: u32, boxes: &[PacketBox]) -> bool
    requires there { set < length diagrams.now }
    requires boxes { All IsBox boxes.now }
    ensures { IsTrue result ↔ HasAny diagrams.now set boxes.now }
{
    for within in boxes {
        if diagrams.member(set, within).is_some() {
            return true;
        }
    }
    false
}
