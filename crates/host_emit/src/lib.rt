//! Host firewalls: the rules for the machines of one host, and the packets that pass if every
//! specific host has its rules.
#![tactic(auto)]

mod emit;
mod laws;
mod local;

pub use emit::emit_local;
pub use laws::firewalls_pass_as_one;
pub use local::{is_specific, local_rules};
