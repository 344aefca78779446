//! The answers of `topos-query why` and `topos-query network`, and their JSON.
//!
//! `explain` and `why_json` answer why a flow is permitted, denied or without answers; `network_json` answers the same for
//! every flow, with the hosts and the invariants. The definitions of the texts are in `specs/WhyJson.antt`, those of the facts
//! in `specs/Explanations.antt` and `specs/NetworkText.antt`.
#![tactic(auto)]

mod explanation;
mod invariants;
mod network;
mod offence;
mod standing;
mod why;

pub use explanation::{Explanation, explain};
pub use network::{denials_of, is_gap, network_json};
pub use offence::Offence;
pub use standing::{Standing, standing_of};
pub use why::why_json;
