//! Two information-flow templates: Bell-LaPadula with levels, and tainting with labels. The
//! offending host of a flow that does not pass is its receiver.
#![tactic(auto)]

mod blp;
mod tainting;

pub use blp::Blp;
pub use tainting::Tainting;
