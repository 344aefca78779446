//! The choice of the strict invariants, which also apply to answers.

ghost use Rattle.std.specs.Prelude.{◌≡◌};
ghost use Rattle.state_core.specs.Stateful.{is_strict};

use inv_law::Invariant;
use permit_core::Choice;
use state_core::is_strict;

/// The choice of the strict invariants.
#[derive(Drop)]
pub struct Strict;

impl<I: Invariant> Choice<I> for Strict {
    ghost chosen = { λ _ inv. is_strict (I.strategy_of inv) (I.edge_mark inv) };

    fn chooses(&self, inv: &I) -> bool {
        is_strict(inv)
    }
}
