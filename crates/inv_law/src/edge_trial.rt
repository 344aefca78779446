//! The steps of an edge-wise invariant: it evaluates only the new flow.

ghost use Rattle.std.specs.Prelude.{◌≡◌};

use crate::edge_rule::EdgeRule;
use crate::edge_wise::EdgeWise;
use crate::invariant::Invariant;
use crate::stepwise::{Stepwise, Trial};
use flow_set::{Flow, FlowSet, UndoableFlowSet};
use std::alloc::{AllocError, Global};
use std::marker::Model;

/// An undoable set of flows for an edge-wise invariant.
#[derive(Drop)]
pub struct EdgeTrial {
    steps: UndoableFlowSet,
}

impl Model for EdgeTrial {
    ghost use Rattle.flow_set.specs.inner.Steps.{UndoableFlows};

    ghost Value = { UndoableFlows };

    ghost view = { λ t. t.steps };
}

impl Trial for EdgeTrial {
    ghost tried = { λ t. t };

    fn size(&self) -> u16 {
        self.steps.size()
    }
}

impl<R: EdgeRule> Stepwise for EdgeWise<R> {
    type Tried = EdgeTrial;

    ghost fits = { λ x tried. tried.size ≡ R.size_of x };

    fn trial(&self, alloc: Global, e: &FlowSet) -> Result<EdgeTrial, AllocError> {
        Ok(EdgeTrial {
            steps: UndoableFlowSet::new(alloc, e)?,
        })
    }

    fn step(&self, tried: &mut EdgeTrial, f: Flow) -> bool {
        tried.steps.step(f);
        self.admits(f)
    }

    fn back(&self, tried: &mut EdgeTrial) {
        tried.steps.back();
    }

    fn holds_with(&self, tried: &mut EdgeTrial, f: Flow) -> bool {
        tried.steps.forget();
        self.admits(f)
    }

    ghost fits_size = { λ x tried fits. fits };
}
