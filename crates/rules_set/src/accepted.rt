//! The packets that chains forward.

ghost use Rattle.std.specs.Prelude.{◌≡◌, ◌<◌, ◌≤◌, ◌||◌, ◌&&◌, ℕ, not, true, length, IfErr, IfOk};
ghost use Rattle.host_net.specs.declared.packet.Packet.{Packet};
ghost use Rattle.host_net.specs.Verdict.{verdict_if};
ghost use Rattle.header_space.specs.Boxes.{IsIn};
ghost use Rattle.header_space.specs.Matching.{field_fits, fits};
ghost use Rattle.ipt_rules.specs.Chain.{rules_of};
ghost use Rattle.ipt_rules.specs.Semantics.{policy_verdict};
ghost use Rattle.packet_set.specs.Nodes.{has};
ghost use Rattle.packet_set.specs.Sets.{IsRefusedBy, IsSet, Keeps};
ghost use Rattle.rules_set.specs.Accepting.{IsAcceptedBy};
ghost use Rattle.rules_set.specs.inner.Effects.{AreSets, HasBox, IsEffect};

use crate::effect::{Effect, Traversal};
use crate::known::{effect_at, learn, none_known};
use header_space::{FieldMatch, HeaderMatch, PacketBox};
use host_net::CtState;
use ipt_rules::{ChainsRef, FORWARD, Policy};
use packet_set::{Diagrams, Operation, SetRefusal};
use std::alloc::Global;

/// Returns the set of the packets of a box that the chains forward in a state. Packets outside the box may be in the
/// set or not.
pub fn accepted_by(
    alloc: Global,
    diagrams: &mut Diagrams,
    rules: &ChainsRef<'_>,
    state: CtState,
    within: &PacketBox,
) -> Result<u32, SetRefusal>
    ensures keeps { Keeps diagrams.old diagrams.new }
    ensures set { IfOk result (IsAcceptedBy diagrams.new rules.now state within.now) }
    ensures refused { IfErr result (IsRefusedBy diagrams.new) }
{
    let traversal = Traversal {
        rules,
        state,
        within: *within,
        area: diagrams.matching(&header_of_box(within))?,
    };
    let effect = effect_of_forward(alloc, diagrams, &traversal)?;
    // This call establishes that FORWARD exists.
    let _count = rules.count();
    by_policy(diagrams, effect, accepts(rules.policy(FORWARD)))
}

/// Returns the effect of `FORWARD`.
fn effect_of_forward(
    alloc: Global,
    diagrams: &mut Diagrams,
    traversal: &Traversal<'_>,
) -> Result<Effect, SetRefusal>
    requires { HasBox diagrams.old traversal.now.within traversal.now.area }
    ensures keeps { Keeps diagrams.old diagrams.new }
    ensures effect { IfOk result (IsEffect diagrams.new traversal.now.rules.now traversal.now.state traversal.now.within (rules_of traversal.now.rules.now 1)) }
    ensures refused { IfErr result (IsRefusedBy diagrams.new) }
{
    let count = traversal.rules.count();
    let mut known = none_known(alloc, count)?;
    learn(diagrams, traversal, &mut known, FORWARD, count)?;
    Ok(effect_at(&known, FORWARD).unwrap())
}

/// Returns a match that selects all packets of a box.
fn header_of_box(within: &PacketBox) -> HeaderMatch
    ensures { (p : Packet) → IsIn within.now p → fits result p ≡ true }
{
    let (least, greatest) = (within.least, within.greatest);
    HeaderMatch {
        src: numbers(least.src, greatest.src),
        dst: numbers(least.dst, greatest.dst),
        proto: numbers(least.proto as u32, greatest.proto as u32),
        sport: numbers(least.sport as u32, greatest.sport as u32),
        dport: numbers(least.dport as u32, greatest.dport as u32),
    }
}

/// Returns a match that selects the numbers from `low` to `high`.
fn numbers(low: u32, high: u32) -> Option<FieldMatch>
    ensures { (n : ℕ) → low ≤ n → n ≤ high → field_fits result n ≡ true }
{
    Some(FieldMatch {
        low,
        high,
        negated: false,
    })
}

/// Whether a policy accepts the packets that it decides.
fn accepts(policy: Option<Policy>) -> bool
    ensures { policy_verdict policy ≡ verdict_if result }
{
    match policy {
        Some(Policy::Accept) => true,
        Some(Policy::Drop) | None => false,
    }
}

/// Returns the packets that the rules of `FORWARD` accept, with the packets that they leave to the policy if it
/// accepts.
fn by_policy(diagrams: &mut Diagrams, effect: Effect, accepts: bool) -> Result<u32, SetRefusal>
    requires { AreSets diagrams.old effect }
    ensures keeps { Keeps diagrams.old diagrams.new }
    ensures set { IfOk result (λ set. IsSet diagrams.new set (λ p. has diagrams.old effect.accepted p || (accepts && not (has diagrams.old effect.dropped p)))) }
    ensures refused { IfErr result (IsRefusedBy diagrams.new) }
{
    if !accepts {
        return Ok(effect.accepted);
    }
    let every = diagrams.every();
    let left = diagrams.combine(Operation::Difference, every, effect.dropped)?;
    diagrams.combine(Operation::Union, effect.accepted, left)
}
