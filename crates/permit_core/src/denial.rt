//! The invariant that denies a flow.

ghost use Rattle.std.specs.Prelude.{◌≡◌, ◌≤◌, All, length, IfOk, IsSome, MatchOption};
ghost use Rattle.flow_set.specs.Flow.{IsFlow};
ghost use Rattle.flow_set.specs.FlowSet.{with_flow};
ghost use Rattle.permit_core.specs.Policy.{AllHold, IsFirstFailing};
ghost use Rattle.permit_core.specs.inner.Denied.{IsDenied};

use flow_set::{Flow, FlowSet};
use inv_law::Invariant;
use std::alloc::{AllocError, Global};

/// Returns the index, from 0, of the first invariant that fails on `p` with the flow `f`, and
/// `None` if all hold.
pub fn blame<I: Invariant>(
    alloc: Global,
    invs: &[I],
    p: &FlowSet,
    f: Flow,
) -> Result<Option<u16>, AllocError>
    requires sizes { All (λ inv. I.size_of inv ≡ p.now.size) invs.now }
    requires flow { IsFlow p.now.size f }
    requires numbers { length invs.now ≤ 65536 }
    ensures least { let with = with_flow p.now.flows f in
        IfOk result (λ blamed. MatchOption blamed
        (AllHold I.holds_on invs.now with)
        (λ number. IsFirstFailing I.holds_on invs.now with number)) }
    // A flow that was requested and not permitted is attributed to an invariant.
    ensures denied { IsDenied (AllHold I.holds_on invs.now) p.now.flows f → IfOk result IsSome }
{
    let mut with = p.copy(alloc)?;
    with.insert(f);
    match first_failing(alloc, invs, &with)? {
        Some(number) => Ok(Some(number as u16)),
        None => Ok(None),
    }
}

// Returns the index, from 0, of the first invariant that fails on the set, and `None` if all hold.
fn first_failing<I: Invariant>(
    alloc: Global,
    invs: &[I],
    e: &FlowSet,
) -> Result<Option<usize>, AllocError>
    requires { All (λ inv. I.size_of inv ≡ e.now.size) invs.now }
    ensures { IfOk result (λ failing. MatchOption failing
        (AllHold I.holds_on invs.now e.now.flows)
        (λ number. IsFirstFailing I.holds_on invs.now e.now.flows number)) }
{
    for (number, inv) in invs.iter().enumerate() {
        if !inv.holds(alloc, e)? {
            return Ok(Some(number));
        }
    }
    Ok(None)
}
