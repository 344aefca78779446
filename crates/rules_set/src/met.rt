//! The rules that packets of a set meet, each with the set of the packets that meet it. The packets traverse the rules
//! of a chain in order: those that a rule decides leave, the others continue with the next rule.

ghost use Rattle.std.specs.Prelude.{◌≡◌, ◌⊎◌, ◌<◌, length, is_some, slice_get, IfOk, Some, true};
ghost use Rattle.host_net.specs.declared.packet.Packet.{Packet};
ghost use Rattle.ipt_rules.specs.Chain.{rules_of};
ghost use Rattle.ipt_rules.specs.Meets.{target_verdict};
ghost use Rattle.ipt_rules.specs.inner.Walking.{IsShallow};
ghost use Rattle.packet_set.specs.Nodes.{has};
ghost use Rattle.packet_set.specs.Sets.{Keeps};
ghost use Rattle.rules_set.specs.Meeting.{AreMet, AreSetsOfRules};
ghost use Rattle.rules_set.specs.inner.Known.{IsShallowTarget, JumpsShallow};
ghost use Rattle.rules_set.specs.inner.Walks.{AreFlowSets, IsPassed, IsStepped, IsWalked};

use crate::header::header_of;
use header_space::PacketBox;
use host_net::CtState;
use ipt_rules::{ChainsRef, FORWARD, Place, Rule, Target};
use packet_set::{Diagrams, Operation, SetRefusal};
use std::alloc::{AllocError, AllocFailed, Global};

/// A set of packets that meet a rule.
#[derive(Clone, Copy, Debug, PartialEq, Eq)]
pub struct MetSet {
    /// The place of the rule.
    pub place: Place,
    /// Whether the target of the rule is a verdict.
    pub ends: bool,
    pub set: u32,
}

/// The rules that packets of a set meet.
#[derive(Drop)]
pub struct MetSets {
    /// Sets of packets that meet a rule. A rule has a set for each time that its chain is entered.
    pub sets: Vec<MetSet>,
    /// The packets that no rule of `FORWARD` decides.
    pub returned: u32,
}

/// Why the rules that packets meet are not computed.
#[derive(Clone, Copy, Debug, PartialEq, Eq)]
pub enum MeetRefusal {
    /// The diagrams have too many nodes, there are too many sets, or a chain has too many rules.
    TooMany,
    /// Out of memory.
    Memory,
}

impl From<SetRefusal> for MeetRefusal {
    ghost from_gives = { λ _ _. Unit {0} };

    fn from(why: SetRefusal) -> MeetRefusal {
        match why {
            SetRefusal::TooManyNodes => MeetRefusal::TooMany,
            SetRefusal::Memory => MeetRefusal::Memory,
        }
    }
}

impl From<AllocError> for MeetRefusal {
    ghost from_gives = { λ _ _. Unit {0} };

    fn from(_: AllocError) -> MeetRefusal {
        MeetRefusal::Memory
    }
}

impl<T: Drop> From<AllocFailed<T>> for MeetRefusal {
    ghost from_gives = { λ _ _. Unit {0} };

    fn from(_: AllocFailed<T>) -> MeetRefusal {
        MeetRefusal::Memory
    }
}

/// The maximum number of sets. A chain that is entered by many ways has sets for each of them.
const SET_LIMIT: usize = 1 << 16;

/// The packets that continue with the next rule, and those that return to the calling chain.
#[derive(Clone, Copy)]
pub(crate) struct Flow {
    pub(crate) left: u32,
    pub(crate) returned: u32,
}

/// The chains that packets of a box traverse in a state.
#[derive(Drop)]
pub(crate) struct Entering<'a> {
    pub(crate) rules: &'a ChainsRef<'a>,
    pub(crate) state: CtState,
    pub(crate) within: PacketBox,
}

/// Returns the rules that packets of a set meet if they enter `FORWARD` in a state. The rules are evaluated on the
/// packets of the box only.
pub fn met_by(
    alloc: Global,
    diagrams: &mut Diagrams,
    rules: &ChainsRef<'_>,
    state: CtState,
    incoming: u32,
    within: &PacketBox,
) -> Result<MetSets, MeetRefusal>
    requires { incoming < length diagrams.old }
    ensures keeps { Keeps diagrams.old diagrams.new }
    ensures met { IfOk result (AreMet diagrams.old diagrams.new rules.now state within.now incoming) }
{
    let entering = Entering {
        rules,
        state,
        within: *within,
    };
    let mut sets = Vec::new(alloc);
    let count = rules.count();
    let returned = walk(diagrams, &entering, &mut sets, FORWARD, incoming, count)?;
    Ok(MetSets { sets, returned })
}

/// Appends the rules that packets of a set meet in a chain. Returns the packets that the chain returns. Jumps are nested
/// less than `depth` deep.
#[cycle(walk)]
fn walk(
    diagrams: &mut Diagrams,
    entering: &Entering<'_>,
    sets: &mut Vec<MetSet>,
    chain: u16,
    incoming: u32,
    depth: u16,
) -> Result<u32, MeetRefusal>
    requires shallow { IsShallow entering.now.rules.now depth chain }
    requires incoming { incoming < length diagrams.old }
    requires sets { AreSetsOfRules diagrams.old entering.now.rules.now sets.old.items }
    ensures keeps { Keeps diagrams.old diagrams.new }
    ensures sets { AreSetsOfRules diagrams.new entering.now.rules.now sets.new.items }
    ensures walked { IfOk result (IsWalked diagrams.old diagrams.new entering.now.rules.now entering.now.state entering.now.within chain incoming sets.old.items sets.new.items) }
{
    let rules = entering.rules.rules_in(chain);
    if rules.len() > u32::MAX as usize {
        return Err(MeetRefusal::TooMany);
    }
    let mut flow = Flow {
        left: incoming,
        returned: diagrams.empty(),
    };
    for number in 0..rules.len() {
        let place = Place {
            chain,
            rule: number as u32,
        };
        flow = step(
            diagrams,
            entering,
            sets,
            place,
            &rules[number],
            flow,
            depth - 1,
        )?;
    }
    let back = diagrams.combine(Operation::Union, flow.left, flow.returned)?;
    Ok(back)
}

/// Appends the packets that meet the rule at a place, and the rules that they meet in a chain that it jumps to. Returns
/// the packets that continue, and those that return.
#[cycle(walk)]
fn step(
    diagrams: &mut Diagrams,
    entering: &Entering<'_>,
    sets: &mut Vec<MetSet>,
    place: Place,
    rule: &Rule,
    flow: Flow,
    depth: u16,
) -> Result<Flow, MeetRefusal>
    requires at { slice_get (rules_of entering.now.rules.now place.chain) place.rule ≡ Some rule.now }
    requires shallow { JumpsShallow entering.now.rules.now depth rule.now }
    requires flow { AreFlowSets diagrams.old flow }
    requires sets { AreSetsOfRules diagrams.old entering.now.rules.now sets.old.items }
    ensures keeps { Keeps diagrams.old diagrams.new }
    ensures sets { AreSetsOfRules diagrams.new entering.now.rules.now sets.new.items }
    ensures stepped { IfOk result (IsStepped diagrams.old diagrams.new entering.now.rules.now entering.now.state entering.now.within place rule.now flow sets.old.items sets.new.items) }
{
    if diagrams.is_empty(flow.left) {
        return Ok(flow);
    }
    let Some(header) = header_of(rule, entering.state, &entering.within) else {
        return Ok(flow);
    };
    let fitting = diagrams.matching(&header)?;
    let met = diagrams.combine(Operation::Intersection, flow.left, fitting)?;
    if diagrams.is_empty(met) {
        return Ok(flow);
    }
    if sets.len() >= SET_LIMIT {
        return Err(MeetRefusal::TooMany);
    }
    sets.push(MetSet {
        place,
        ends: is_verdict(rule.target),
        set: met,
    })?;
    let after = passed(diagrams, entering, sets, rule.target, met, flow, depth)?;
    Ok(after)
}

/// Whether a target is a verdict.
fn is_verdict(target: Target) -> bool
    ensures { result ≡ is_some (target_verdict target) }
{
    match target {
        Target::Accept | Target::Drop | Target::Reject => true,
        Target::Return | Target::Count | Target::Jump(_) => false,
    }
}

/// Returns the packets that continue after a rule with a target, and those that return, by the packets that meet it.
/// Appends the rules that these meet in a chain that it jumps to.
#[cycle(walk)]
fn passed(
    diagrams: &mut Diagrams,
    entering: &Entering<'_>,
    sets: &mut Vec<MetSet>,
    target: Target,
    met: u32,
    flow: Flow,
    depth: u16,
) -> Result<Flow, MeetRefusal>
    requires shallow { IsShallowTarget entering.now.rules.now depth target }
    requires flow { AreFlowSets diagrams.old flow }
    requires met { met < length diagrams.old }
    requires part { (p : Packet) → has diagrams.old met p ≡ true → has diagrams.old flow.left p ≡ true }
    requires sets { AreSetsOfRules diagrams.old entering.now.rules.now sets.old.items }
    ensures keeps { Keeps diagrams.old diagrams.new }
    ensures sets { AreSetsOfRules diagrams.new entering.now.rules.now sets.new.items }
    ensures passed { IfOk result (IsPassed diagrams.old diagrams.new entering.now.rules.now entering.now.state entering.now.within target met flow sets.old.items sets.new.items) }
{
    match target {
        Target::Count => Ok(flow),
        Target::Accept | Target::Drop | Target::Reject => {
            let left = diagrams.combine(Operation::Difference, flow.left, met)?;
            Ok(Flow { left, ..flow })
        }
        Target::Return => {
            let left = diagrams.combine(Operation::Difference, flow.left, met)?;
            let returned = diagrams.combine(Operation::Union, flow.returned, met)?;
            Ok(Flow { left, returned })
        }
        Target::Jump(chain) => {
            let left = diagrams.combine(Operation::Difference, flow.left, met)?;
            let back = walk(diagrams, entering, sets, chain, met, depth)?;
            let left = diagrams.combine(Operation::Union, left, back)?;
            Ok(Flow { left, ..flow })
        }
    }
}
