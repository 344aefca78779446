//! The comparison by pairs of owners: where rules differ from a policy, and in which direction.

ghost use Rattle.std.specs.Prelude.{◌≡◌, ◌↔◌, List, [], ◌∷◌, true, IfOk, OnOk};
ghost use Rattle.std.specs.List.{All, flat_map};
ghost use Rattle.audit_core.specs.Findings.{DifferSomewhere};
ghost use Rattle.audit_core.specs.declared.difference.Difference.{Difference};
ghost use Rattle.audit_core.specs.Pairs.{AreDifferences, IsComplete, case_of, cases_between};
ghost use Rattle.audit_core.specs.Sides.{Sides, sides_of};
ghost use Rattle.header_space.specs.Owners.{AreOwned, HasRanges, IsOwned};
ghost use Rattle.audit_core.specs.inner.Pairs.{AreAdded, HasRange, IsSender};
ghost use Rattle.rules_space.specs.RulesView.{rules_of};

use crate::difference::{Difference, Direction};
use crate::fault::are_right;
use crate::finding::Trace;
use crate::kind::Kind;
use crate::part::Part;
use crate::sources::Sender;
use header_space::{Owned, all_owned};
use pkt_core::FlowPolicy;
use rules_space::RulesRef;
use std::alloc::{AllocError, Global};

/// Compares rules with a policy for each pair of owners. The owners are the hosts in their order and, last,
/// `None` for the addresses that no host owns. A pair has at most one difference of each kind of list and
/// direction. It has one if and only if a packet of the pair differs in that kind and direction. The trace of
/// a difference is the list at the first of these packets. Two calls with the same policy and rules return
/// the same list.
pub fn compare_pairs(
    alloc: Global,
    policy: &FlowPolicy<'_>,
    text: &RulesRef<'_>,
) -> Result<Vec<Difference>, AllocError>
    ensures differences { IfOk result (λ list. AreDifferences (sides_of policy.now (rules_of text.now)) list.items) }
    ensures complete { IfOk result (λ list. IsComplete (sides_of policy.now (rules_of text.now)) list.items) }
    ensures one { IfOk result (λ list. (other : List Difference) →
        AreDifferences (sides_of policy.now (rules_of text.now)) other → other ≡ list.items) }
    // There is no difference if and only if the two sides differ on no list of events.
    ensures exact { IfOk result (λ list. (list.items ≡ []) ↔
        (DifferSomewhere (sides_of policy.now (rules_of text.now)) → ⊥)) }
{
    let sides = Part::whole(policy, *text);
    if are_right(alloc, &sides)? {
        return Ok(Vec::new(alloc));
    }
    let owned = all_owned(alloc, policy.hosts())?;
    differences_between(alloc, &sides, &owned)
}

fn differences_between(
    alloc: Global,
    sides: &Part<'_>,
    owned: &[Owned],
) -> Result<Vec<Difference>, AllocError>
    requires { AreOwned sides.now.policy.site.hosts owned.now }
    ensures { IfOk result (λ list. AreDifferences sides.now list.items) }
{
    let mut list = Vec::new(alloc);
    for from in owned {
        let sender = sides.sender(alloc, from)?;
        push_from(alloc, &mut list, &sender, owned)?;
    }
    Ok(list)
}

/// Adds the differences from one owner to all.
fn push_from(
    alloc: Global,
    list: &mut Vec<Difference>,
    from: &Sender<'_>,
    owned: &[Owned],
) -> Result<(), AllocError>
    requires from { All HasRange from.now.sources.items }
    requires to { All HasRanges owned.now }
    ensures { OnOk result ((sides : Sides) → IsSender sides from.now → All (IsOwned sides.policy.site.hosts) owned.now →
        AreAdded sides (flat_map (λ to. cases_between from.now.owner to.owner) owned.now) list.old.items list.new.items) }
{
    for to in owned {
        push_pair(alloc, list, from, to)?;
    }
    Ok(())
}

/// Adds the differences from one owner to another.
fn push_pair(
    alloc: Global,
    list: &mut Vec<Difference>,
    from: &Sender<'_>,
    to: &Owned,
) -> Result<(), AllocError>
    requires from { All HasRange from.now.sources.items }
    requires to { HasRanges to.now }
    ensures { OnOk result ((sides : Sides) → IsSender sides from.now → IsOwned sides.policy.site.hosts to.now →
        AreAdded sides (cases_between from.now.owner to.now.owner) list.old.items list.new.items) }
{
    let some = from.find(alloc, None, &to.ranges)?;
    if some.is_none() {
        return Ok(());
    }
    push_case(alloc, list, from, to, Kind::Alone, true)?;
    push_case(alloc, list, from, to, Kind::Alone, false)?;
    push_case(alloc, list, from, to, Kind::AfterSwap, true)?;
    push_case(alloc, list, from, to, Kind::AfterSwap, false)?;
    push_case(alloc, list, from, to, Kind::AfterBoth, true)?;
    push_case(alloc, list, from, to, Kind::AfterBoth, false)?;
    Ok(())
}

/// Adds the difference of that kind and direction from one owner to another, if there is one.
fn push_case(
    alloc: Global,
    list: &mut Vec<Difference>,
    from: &Sender<'_>,
    to: &Owned,
    kind: Kind,
    forwards: bool,
) -> Result<(), AllocError>
    requires from { All HasRange from.now.sources.items }
    requires to { HasRanges to.now }
    ensures { OnOk result ((sides : Sides) → IsSender sides from.now → IsOwned sides.policy.site.hosts to.now →
        AreAdded sides (case_of from.now.owner to.now.owner kind forwards ∷ []) list.old.items list.new.items) }
{
    let direction = Direction { kind, forwards };
    match from.find(alloc, Some(direction), &to.ranges)? {
        None => Ok(()),
        Some(packet) => {
            list.push(Difference {
                from: from.owner,
                to: to.owner,
                trace: Trace::of(kind, packet, forwards),
            })?;
            Ok(())
        }
    }
}
