//! The trial of an invariant of any template, by the kind of the template. It belongs to no
//! invariant of the other kind.

ghost use Rattle.std.specs.Prelude.{◌≡◌};
ghost use Rattle.inv_any.specs.inner.AnyTrials.{tried_of, FitsAny};

use crate::any_inv::{AnyInv, each};
use flow_set::{Flow, FlowSet};
use inv_law::{EdgeTrial, Stepwise, Trial};
use std::alloc::{AllocError, Global};
use tmpl_reach::ReachTrial;

// A trial, by the kind of the template: edge-wise, or on walks.
#[derive(Drop)]
enum Case {
    Edge(EdgeTrial),
    Walk(ReachTrial),
}

// A trial of the invariant in `any`, here `inv`, of the kind of its template.
macro_rules! begin_trial {
    ($any:expr, $inv:ident => $trial:expr; $($edge:ident)*; $($walk:ident)*) => {
        match $any {
            $(AnyInv::$edge($inv) => Case::Edge($trial),)*
            $(AnyInv::$walk($inv) => Case::Walk($trial),)*
        }
    };
}

// The result of the invariant in `any` for the trial in `case`. A trial that belongs to the
// invariant is of the kind of its template.
macro_rules! ask_trial {
    ($any:expr, $case:expr, $inv:ident, $tried:ident => $answer:expr, $other:expr; $($edge:ident)*; $($walk:ident)*) => {
        match $any {
            $(AnyInv::$edge($inv) => match $case {
                Case::Edge($tried) => $answer,
                _ => $other,
            },)*
            $(AnyInv::$walk($inv) => match $case {
                Case::Walk($tried) => $answer,
                _ => $other,
            },)*
        }
    };
}

/// An undoable set of flows for an invariant of any template.
#[derive(Drop)]
pub struct AnyTrial {
    case: Case,
}

impl Trial for AnyTrial {
    ghost tried = { λ t. tried_of t.case };

    fn size(&self) -> u16 {
        match &self.case {
            Case::Edge(tried) => tried.size(),
            Case::Walk(tried) => tried.size(),
        }
    }
}

impl Stepwise for AnyInv {
    type Tried = AnyTrial;

    ghost fits = { λ any tried. FitsAny any tried.case };

    fn trial(&self, alloc: Global, e: &FlowSet) -> Result<AnyTrial, AllocError> {
        let case = each!(begin_trial, self, inv => inv.trial(alloc, e)?);
        Ok(AnyTrial { case })
    }

    fn step(&self, tried: &mut AnyTrial, f: Flow) -> bool {
        each!(ask_trial, self, &mut tried.case, inv, tried => inv.step(tried, f), false)
    }

    fn back(&self, tried: &mut AnyTrial) {
        each!(ask_trial, self, &mut tried.case, inv, tried => inv.back(tried), ())
    }

    fn holds_with(&self, tried: &mut AnyTrial, f: Flow) -> bool {
        each!(ask_trial, self, &mut tried.case, inv, tried => inv.holds_with(tried, f), false)
    }

    ghost fits_size = { λ any tried fits. fits.size };
}
