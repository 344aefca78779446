//! The selection of invariants that are evaluated.

ghost use Rattle.std.specs.Prelude.{◌≡◌, ◌&&◌, Bool, not, true};

use inv_law::Invariant;

/// A selection among invariants.
pub trait Choice<I> {
    ghost chosen: { Self → I → Bool };

    fn chooses(&self, inv: &I) -> bool
        ensures { result ≡ chosen self.now inv.now };
}

/// Selects all invariants.
#[derive(Drop)]
pub struct Every;

impl<I> Choice<I> for Every {
    ghost chosen = { λ _ _. true };

    fn chooses(&self, _inv: &I) -> bool {
        true
    }
}

/// Whether the invariant is chosen and edge-wise.
pub(crate) fn is_chosen_edge_wise<I: Invariant, C: Choice<I>>(choice: &C, inv: &I) -> bool
    ensures { result ≡ (C.chosen choice.now inv.now && I.edge_mark inv.now) }
{
    choice.chooses(inv) && inv.edge_wise()
}

/// Whether the invariant is chosen and not edge-wise.
pub(crate) fn is_chosen_path_based<I: Invariant, C: Choice<I>>(choice: &C, inv: &I) -> bool
    ensures { result ≡ (C.chosen choice.now inv.now && not (I.edge_mark inv.now)) }
{
    choice.chooses(inv) && !inv.edge_wise()
}
