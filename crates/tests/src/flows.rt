//! Flows between the first hosts.

use flow_set::Flow;

pub(crate) const A_TO_B: Flow = Flow { from: 0, to: 1 };

pub(crate) const A_TO_C: Flow = Flow { from: 0, to: 2 };

pub(crate) const B_TO_A: Flow = Flow { from: 1, to: 0 };

pub(crate) const B_TO_C: Flow = Flow { from: 1, to: 2 };

pub(crate) const C_TO_B: Flow = Flow { from: 2, to: 1 };
