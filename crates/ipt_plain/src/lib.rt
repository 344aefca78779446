//! Whether `iptables-restore` reads a rules text as `ipt_read` does, and the first line that it
//! reads otherwise.
#![tactic(auto)]

mod arguments;
mod fault;
mod line;
mod ports;
mod text;

pub use fault::{PlainFault, PlainWhy};
pub use text::plain_fault;
