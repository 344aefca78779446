//! The answer of `topos-query changes` as JSON: the changes between two policies, and what they weaken (`weakening_of`).
//!
//! The definition of the text is in `specs/ChangesJson.antt`, that of a weakening in `specs/Weakening.antt`.
#![tactic(auto)]

mod changes;
mod weakened;
mod weakening;

pub use changes::changes_json;
pub use weakened::Weakened;
pub use weakening::{Weakening, weakening_of};
