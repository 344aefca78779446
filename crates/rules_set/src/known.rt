//! The effects of chains, each computed at most once, when a rule that jumps to the chain is reached.

ghost use Rattle.std.specs.Prelude.{◌≡◌, ◌≤◌, ◌<◌, length, IfErr, IfOk, IsSome, None, OnOk, replicate};
ghost use Rattle.std.specs.List.{All};
ghost use Rattle.ipt_rules.specs.inner.Walking.{IsShallow};
ghost use Rattle.packet_set.specs.Sets.{IsRefusedBy, Keeps};
ghost use Rattle.rules_set.specs.inner.Effects.{HasBox, IsEffect};
ghost use Rattle.rules_set.specs.inner.Known.{AreKnown, JumpsShallow, KnowsMore, LeadsToKnown, effect_at};

use crate::effect::{Effect, Traversal, decides_all, none, with_rules};
use ipt_rules::{Rule, Target};
use packet_set::{Diagrams, SetRefusal};
use std::alloc::{AllocError, Global};

/// The number of rules of the first part of a chain.
const FIRST_PART: usize = 32;

/// Returns the effect of a chain, if it is known.
pub(crate) fn effect_at(known: &[Option<Effect>], chain: u16) -> Option<Effect>
    ensures { result ≡ effect_at known.now chain }
{
    known.get(chain as usize).copied().unwrap_or(None)
}

/// Returns a table in which no effect of the first `count` chains is known.
pub(crate) fn none_known(alloc: Global, count: u16) -> Result<Vec<Option<Effect>>, AllocError>
    ensures { IfOk result (λ known. known.items ≡ replicate count None) }
{
    let mut known = Vec::new(alloc);
    for _ in 0..count {
        known.push(None)?;
    }
    Ok(known)
}

/// Computes the effect of a chain, unless it is known. Jumps are nested less than `depth` deep.
#[cycle(learn)]
pub(crate) fn learn(
    diagrams: &mut Diagrams,
    traversal: &Traversal<'_>,
    known: &mut [Option<Effect>],
    number: u16,
    depth: u16,
) -> Result<(), SetRefusal>
    requires shallow { IsShallow traversal.now.rules.now depth number }
    requires room { length traversal.now.rules.now ≤ length known.old }
    requires area { HasBox diagrams.old traversal.now.within traversal.now.area }
    requires known { AreKnown diagrams.old traversal.now.rules.now traversal.now.state traversal.now.within known.old }
    ensures keeps { Keeps diagrams.old diagrams.new }
    ensures known { AreKnown diagrams.new traversal.now.rules.now traversal.now.state traversal.now.within known.new }
    ensures more { KnowsMore known.old known.new }
    ensures chain { OnOk result (IsSome (effect_at known.new number)) }
    ensures refused { IfErr result (IsRefusedBy diagrams.new) }
{
    if effect_at(known, number).is_some() {
        return Ok(());
    }
    let rules = traversal.rules.rules_in(number);
    let effect = effect_in_order(diagrams, traversal, known, rules, depth - 1)?;
    known[number as usize] = Some(effect);
    Ok(())
}

/// Returns the effect of rules, part by part until no packet continues. Computes the effects of the chains that a part
/// jumps to before the effect of the part. Each part has as many rules as all parts before it.
#[cycle(learn)]
fn effect_in_order(
    diagrams: &mut Diagrams,
    traversal: &Traversal<'_>,
    known: &mut [Option<Effect>],
    rules: &[Rule],
    depth: u16,
) -> Result<Effect, SetRefusal>
    requires shallow { All (JumpsShallow traversal.now.rules.now depth) rules.now }
    requires room { length traversal.now.rules.now ≤ length known.old }
    requires area { HasBox diagrams.old traversal.now.within traversal.now.area }
    requires known { AreKnown diagrams.old traversal.now.rules.now traversal.now.state traversal.now.within known.old }
    ensures keeps { Keeps diagrams.old diagrams.new }
    ensures known { AreKnown diagrams.new traversal.now.rules.now traversal.now.state traversal.now.within known.new }
    ensures more { KnowsMore known.old known.new }
    ensures effect { IfOk result (IsEffect diagrams.new traversal.now.rules.now traversal.now.state traversal.now.within rules.now) }
    ensures refused { IfErr result (IsRefusedBy diagrams.new) }
{
    // This call establishes that each chain has one outcome for a packet.
    let _count = traversal.rules.count();
    let mut effect = none(diagrams);
    let mut done = 0;
    while done < rules.len() {
        let part = &rules[done..end_of_part(done, rules.len())];
        learn_targets(diagrams, traversal, known, part, depth)?;
        effect = with_rules(diagrams, traversal, known, effect, part)?;
        let all = decides_all(diagrams, traversal, effect)?;
        done = if all { rules.len() } else { done + part.len() };
    }
    Ok(effect)
}

/// Returns the end of the part that begins at a place.
fn end_of_part(begin: usize, count: usize) -> usize
    requires { begin < count }
    ensures after { begin < result }
    ensures within { result ≤ count }
{
    let size = begin.max(FIRST_PART);
    begin + size.min(count - begin)
}

/// Computes the effects of the chains that rules jump to.
#[cycle(learn)]
fn learn_targets(
    diagrams: &mut Diagrams,
    traversal: &Traversal<'_>,
    known: &mut [Option<Effect>],
    rules: &[Rule],
    depth: u16,
) -> Result<(), SetRefusal>
    requires shallow { All (JumpsShallow traversal.now.rules.now depth) rules.now }
    requires room { length traversal.now.rules.now ≤ length known.old }
    requires area { HasBox diagrams.old traversal.now.within traversal.now.area }
    requires known { AreKnown diagrams.old traversal.now.rules.now traversal.now.state traversal.now.within known.old }
    ensures keeps { Keeps diagrams.old diagrams.new }
    ensures known { AreKnown diagrams.new traversal.now.rules.now traversal.now.state traversal.now.within known.new }
    ensures more { KnowsMore known.old known.new }
    ensures targets { OnOk result (All (LeadsToKnown known.new) rules.now) }
    ensures refused { IfErr result (IsRefusedBy diagrams.new) }
{
    for rule in rules {
        if let Target::Jump(chain) = rule.target {
            learn(diagrams, traversal, known, chain, depth)?;
        }
    }
    Ok(())
}
