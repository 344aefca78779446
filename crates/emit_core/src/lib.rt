//! The layouts of a policy: iptables chains, and a flow table, that forward exactly its packets.
//! This crate builds them; the crates above print them and evaluate them on lists of packets. The
//! rules of a single host, outbound or inbound, and the calls that fill chains with rules, are also
//! here for other layouts.
#![tactic(auto)]

mod answers;
mod direction;
mod emit;
mod entries;
mod filling;
mod flow_entry;
mod flows;
mod forward;
mod host_chain;
mod iptables;
mod laws;
mod narrowing;
mod openflow;
mod parts;
mod permitted;
mod policy_flow;
mod ranges;
mod refusal;
mod rest_flows;

pub use answers::needs_state;
pub use direction::Direction;
pub use emit::{emit_iptables, emit_openflow};
pub use filling::{build_accepted, fill};
pub use host_chain::host_rules;
pub use iptables::iptables_layout;
pub use laws::unnarrowed_flows_are_whole;
pub use openflow::flow_table_layout;
pub use parts::{match_peer, match_prefix};
pub use refusal::{EmitRefusal, NoChains, NoTable};
