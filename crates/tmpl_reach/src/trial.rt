//! The trial of the templates that depend on paths: the half of the closure that the template uses,
//! with one undoable step.

ghost use Rattle.std.specs.Prelude.{◌≡◌};
ghost use Rattle.tmpl_reach.specs.inner.Trials.{tried_half};

use inv_law::Trial;
use reach_core::{JoinClosure, ReachClosure};

// The half of a closure that a template uses: the hosts that each host reaches, or the hosts with
// which it is joined.
#[derive(Drop)]
pub(crate) enum Half {
    Reach(ReachClosure),
    Join(JoinClosure),
}

/// An undoable set of flows for a template that depends on paths. It stores the closure that its
/// template uses, and belongs to no template that uses the other one.
#[derive(Drop)]
pub struct ReachTrial {
    pub(crate) half: Half,
}

impl Trial for ReachTrial {
    ghost tried = { λ t. tried_half t.half };

    fn size(&self) -> u16 {
        match &self.half {
            Half::Reach(closure) => closure.size(),
            Half::Join(closure) => closure.size(),
        }
    }
}
