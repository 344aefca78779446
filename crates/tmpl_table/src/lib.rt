//! Templates that are declared as tables: each host has a kind, and some pairs of kinds are denied.
//! A table is accepted only if its default is secure: each denied pair is also denied with the
//! default at the offending host.
#![tactic(auto)]

mod fault;
mod pairs;
mod table_rule;

pub use fault::TableFault;
pub use table_rule::TableRule;
