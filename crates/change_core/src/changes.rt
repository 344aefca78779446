//! The changes from one policy to another, for each kind of change and each pair of owners.

ghost use Rattle.std.specs.Prelude.{◌≡◌, ◌↔◌, ◌++◌, [], IfOk, OnOk, map};
ghost use Rattle.change_core.specs.Changes.{AreChanges, AreChangesBy, IsComplete, TreatAlike};
ghost use Rattle.change_core.specs.inner.Candidates.{AreOwners};
ghost use Rattle.change_core.specs.inner.Changing.{IsAdded, change_of};

use crate::candidates::Candidates;
use crate::change::Change;
use crate::gained::Gained;
use crate::kind::ChangeKind;
use crate::owners::Owners;
use pass_core::PairServices;
use pkt_core::FlowPolicy;
use std::alloc::{AllocError, Global};

/// Returns the changes from the old policy to the new one: for each kind and each pair of owners, the
/// services of which packets change by this kind. The list is ordered by kind, then by the owner of the
/// source, then by the owner of the destination. A pair is listed for a kind only if one of its packets
/// changes by this kind.
pub fn changes_between(
    alloc: Global,
    old: &FlowPolicy<'_>,
    new: &FlowPolicy<'_>,
) -> Result<Vec<Change>, AllocError>
    ensures changes { IfOk result (λ list. AreChanges old.now new.now list.items) }
    ensures complete { IfOk result (λ list. IsComplete old.now new.now list.items) }
    // There is no change if and only if the policies are equivalent.
    ensures exact { IfOk result (λ list. (list.items ≡ []) ↔ TreatAlike old.now new.now) }
{
    let owners = Owners::of(alloc, new.hosts(), old.hosts())?;
    let mut list = Vec::new(alloc);
    push_kind(alloc, &mut list, ChangeKind::FlowComes, old, new, &owners)?;
    push_kind(alloc, &mut list, ChangeKind::FlowGoes, old, new, &owners)?;
    push_kind(alloc, &mut list, ChangeKind::AnswersCome, old, new, &owners)?;
    push_kind(alloc, &mut list, ChangeKind::AnswersGo, old, new, &owners)?;
    Ok(list)
}

/// Appends the changes of a kind.
fn push_kind(
    alloc: Global,
    list: &mut Vec<Change>,
    kind: ChangeKind,
    old: &FlowPolicy<'_>,
    new: &FlowPolicy<'_>,
    owners: &Owners,
) -> Result<(), AllocError>
    requires { AreOwners new.now.site.hosts old.now.site.hosts owners.now }
    ensures { OnOk result (IsAdded (AreChangesBy old.now new.now kind) list.old.items list.new.items) }
{
    let candidates = Candidates {
        gained: Gained::by(kind, old, new),
        owners,
        count: new.count(),
    };
    let pairs = candidates.gained_by_pairs(alloc)?;
    push_all(list, pairs, kind, new.count())
}

/// Appends the change of each pair.
fn push_all(
    list: &mut Vec<Change>,
    pairs: Vec<PairServices>,
    kind: ChangeKind,
    count: u16,
) -> Result<(), AllocError>
    ensures { OnOk result (list.new.items ≡ list.old.items ++ map (change_of kind count) pairs.items) }
{
    for pair in pairs {
        list.push(Change::of(pair, kind, count))?;
    }
    Ok(())
}
