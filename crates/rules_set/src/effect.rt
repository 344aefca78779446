//! Effects of lists of rules: the packets that the rules accept, drop, or return to the calling chain.

ghost use Rattle.std.specs.Prelude.{◌≡◌, ◌||◌, ◌&&◌, ◌∷◌, ◌++◌, [], ◌<◌, not, length, IfErr, IfOk, List, true, false};
ghost use Rattle.std.specs.List.{All};
ghost use Rattle.host_net.specs.declared.packet.Packet.{Packet};
ghost use Rattle.header_space.specs.Boxes.{IsIn};
ghost use Rattle.header_space.specs.Matching.{fits};
ghost use Rattle.ipt_rules.specs.declared.rule.Rule.{Rule};
ghost use Rattle.ipt_rules.specs.Matching.{matches};
ghost use Rattle.packet_set.specs.Nodes.{has};
ghost use Rattle.packet_set.specs.Sets.{IsRefusedBy, IsSet, Keeps};
ghost use Rattle.rules_set.specs.inner.Effects.{AreSets, DecidesAll, HasBox, IsComposed, IsEffect, IsEffectBy};
ghost use Rattle.rules_set.specs.inner.Known.{AreKnown, LeadsToKnown};

use crate::header::header_of;
use crate::known::effect_at;
use header_space::{HeaderMatch, PacketBox};
use host_net::CtState;
use ipt_rules::{ChainsRef, Rule, Target};
use packet_set::{Diagrams, Operation, SetRefusal};

/// The packets that rules accept, drop, or return to the calling chain. The other packets continue after the rules.
/// If a packet is in several of the sets, the first of these applies.
#[derive(Clone, Copy)]
pub(crate) struct Effect {
    pub(crate) accepted: u32,
    pub(crate) dropped: u32,
    pub(crate) returned: u32,
}

/// The rules that packets of a box traverse in a state.
#[derive(Drop)]
pub(crate) struct Traversal<'a> {
    pub(crate) rules: &'a ChainsRef<'a>,
    pub(crate) state: CtState,
    pub(crate) within: PacketBox,
    /// The packets of the box, as a set. It may have other packets.
    pub(crate) area: u32,
}

/// Returns the effect of a list of rules, by the effects of the chains that they jump to.
pub(crate) fn effect_of(
    diagrams: &mut Diagrams,
    traversal: &Traversal<'_>,
    known: &[Option<Effect>],
    rules: &[Rule],
) -> Result<Effect, SetRefusal>
    requires known { AreKnown diagrams.old traversal.now.rules.now traversal.now.state traversal.now.within known.now }
    requires jumps { All (LeadsToKnown known.now) rules.now }
    ensures keeps { Keeps diagrams.old diagrams.new }
    ensures effect { IfOk result (IsEffect diagrams.new traversal.now.rules.now traversal.now.state traversal.now.within rules.now) }
    ensures refused { IfErr result (IsRefusedBy diagrams.new) }
{
    if rules.len() > 1 {
        let half = rules.len() / 2;
        let first = effect_of(diagrams, traversal, known, &rules[..half])?;
        let second = effect_of(diagrams, traversal, known, &rules[half..])?;
        return composed(diagrams, first, second);
    }
    let Some(rule) = rules.first() else {
        return Ok(none(diagrams));
    };
    if let Target::Count = rule.target {
        return Ok(none(diagrams));
    }
    let Some(header) = header_of(rule, traversal.state, &traversal.within) else {
        return Ok(none(diagrams));
    };
    own(diagrams, traversal, known, rule, &header)
}

/// Returns the effect of an empty list of rules.
pub(crate) fn none(diagrams: &Diagrams) -> Effect
    ensures { IsEffectBy diagrams.now (λ p. false) (λ p. false) (λ p. false) result }
{
    let none = diagrams.empty();
    Effect {
        accepted: none,
        dropped: none,
        returned: none,
    }
}

/// Returns the effect of a rule, by the header fields that it matches on and by the effect of the chain that it jumps
/// to.
fn own(
    diagrams: &mut Diagrams,
    traversal: &Traversal<'_>,
    known: &[Option<Effect>],
    rule: &Rule,
    header: &HeaderMatch,
) -> Result<Effect, SetRefusal>
    requires known { AreKnown diagrams.old traversal.now.rules.now traversal.now.state traversal.now.within known.now }
    requires jump { LeadsToKnown known.now rule.now }
    requires header { (p : Packet) → IsIn traversal.now.within p → matches p traversal.now.state rule.now ≡ fits header.now p }
    ensures keeps { Keeps diagrams.old diagrams.new }
    ensures effect { IfOk result (IsEffect diagrams.new traversal.now.rules.now traversal.now.state traversal.now.within (rule.now ∷ [])) }
    ensures refused { IfErr result (IsRefusedBy diagrams.new) }
{
    let matched = diagrams.matching(header)?;
    let none = none(diagrams);
    match rule.target {
        Target::Accept => Ok(Effect {
            accepted: matched,
            ..none
        }),
        Target::Drop | Target::Reject => Ok(Effect {
            dropped: matched,
            ..none
        }),
        Target::Return => Ok(Effect {
            returned: matched,
            ..none
        }),
        Target::Count => Ok(none),
        Target::Jump(chain) => jump(diagrams, matched, effect_at(known, chain).unwrap()),
    }
}

/// Returns the effect of a jump, by the packets that its rule matches and by the effect of the chain.
fn jump(diagrams: &mut Diagrams, matched: u32, inner: Effect) -> Result<Effect, SetRefusal>
    requires matched { matched < length diagrams.old }
    requires inner { AreSets diagrams.old inner }
    ensures keeps { Keeps diagrams.old diagrams.new }
    ensures effect { IfOk result (IsEffectBy diagrams.new
        (λ p. has diagrams.old inner.accepted p && has diagrams.old matched p) (λ p. has diagrams.old inner.dropped p && has diagrams.old matched p) (λ p. false)) }
    ensures refused { IfErr result (IsRefusedBy diagrams.new) }
{
    let accepted = diagrams.combine(Operation::Intersection, inner.accepted, matched)?;
    let dropped = diagrams.combine(Operation::Intersection, inner.dropped, matched)?;
    let returned = diagrams.empty();
    Ok(Effect {
        accepted,
        dropped,
        returned,
    })
}

/// Returns the effect of rules after other rules, by the effect of these.
pub(crate) fn with_rules(
    diagrams: &mut Diagrams,
    traversal: &Traversal<'_>,
    known: &[Option<Effect>],
    before: Effect,
    rules: &[Rule],
) -> Result<Effect, SetRefusal>
    requires known { AreKnown diagrams.old traversal.now.rules.now traversal.now.state traversal.now.within known.now }
    requires jumps { All (LeadsToKnown known.now) rules.now }
    requires before { AreSets diagrams.old before }
    ensures keeps { Keeps diagrams.old diagrams.new }
    ensures effect { IfOk result (λ e. (first : List Rule) → IsEffect diagrams.old traversal.now.rules.now traversal.now.state traversal.now.within first before
        → IsEffect diagrams.new traversal.now.rules.now traversal.now.state traversal.now.within (first ++ rules.now) e) }
    ensures refused { IfErr result (IsRefusedBy diagrams.new) }
{
    let effect = effect_of(diagrams, traversal, known, rules)?;
    composed(diagrams, before, effect)
}

/// Whether an effect is known to decide all packets of the box: no packet continues after the rules.
pub(crate) fn decides_all(
    diagrams: &mut Diagrams,
    traversal: &Traversal<'_>,
    effect: Effect,
) -> Result<bool, SetRefusal>
    requires area { HasBox diagrams.old traversal.now.within traversal.now.area }
    requires sets { AreSets diagrams.old effect }
    ensures keeps { Keeps diagrams.old diagrams.new }
    ensures all { IfOk result (λ all. all ≡ true → DecidesAll diagrams.old traversal.now.within effect) }
    ensures refused { IfErr result (IsRefusedBy diagrams.new) }
{
    let verdicts = diagrams.combine(Operation::Union, effect.accepted, effect.dropped)?;
    let decided = diagrams.combine(Operation::Union, verdicts, effect.returned)?;
    let left = diagrams.combine(Operation::Difference, traversal.area, decided)?;
    Ok(diagrams.is_empty(left))
}

/// Returns the effect of two lists of rules, the second after the first.
fn composed(diagrams: &mut Diagrams, first: Effect, second: Effect) -> Result<Effect, SetRefusal>
    requires first { AreSets diagrams.old first }
    requires second { AreSets diagrams.old second }
    ensures keeps { Keeps diagrams.old diagrams.new }
    ensures effect { IfOk result (IsComposed diagrams.old diagrams.new first second) }
    ensures refused { IfErr result (IsRefusedBy diagrams.new) }
{
    let accepted = later(
        diagrams,
        first.accepted,
        second.accepted,
        first.dropped,
        first.returned,
    )?;
    let dropped = later(
        diagrams,
        first.dropped,
        second.dropped,
        first.accepted,
        first.returned,
    )?;
    let returned = later(
        diagrams,
        first.returned,
        second.returned,
        first.accepted,
        first.dropped,
    )?;
    Ok(Effect {
        accepted,
        dropped,
        returned,
    })
}

/// Returns the packets of a set, and the packets of a later set that are in neither of two other sets.
fn later(
    diagrams: &mut Diagrams,
    set: u32,
    later: u32,
    one: u32,
    other: u32,
) -> Result<u32, SetRefusal>
    requires sets { (set < length diagrams.old) × (later < length diagrams.old) }
    requires others { (one < length diagrams.old) × (other < length diagrams.old) }
    ensures keeps { Keeps diagrams.old diagrams.new }
    ensures set { IfOk result (λ new. IsSet diagrams.new new (λ p. has diagrams.old set p || (has diagrams.old later p && not (has diagrams.old one p || has diagrams.old other p)))) }
    ensures refused { IfErr result (IsRefusedBy diagrams.new) }
{
    let decided = diagrams.combine(Operation::Union, one, other)?;
    let left = diagrams.combine(Operation::Difference, later, decided)?;
    diagrams.combine(Operation::Union, set, left)
}
