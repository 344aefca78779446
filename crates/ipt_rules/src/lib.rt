//! Rule sets of a packet filter: chains of rules, the verdict on a packet that traverses them, and the text
//! that iptables-restore loads. The parser of such texts and the emitter of layouts depend on this crate.
#![tactic(auto)]

mod chain;
mod chains;
mod chains_ref;
mod header;
mod indexed_ruleset;
mod jumps;
mod loops;
mod marks;
mod meets;
mod name;
mod next;
mod packets;
mod pieces;
mod reached;
mod record;
mod rule;
mod rules;
mod ruleset;
mod services;
mod slice;
mod starts;
mod text;
mod topological_order;
mod verdicts;
mod walk;

pub use chains::Chains;
pub use chains_ref::ChainsRef;
pub use host_net::Verdict;
pub use indexed_ruleset::IndexedRuleset;
pub use marks::{Marks, Place};
pub use name::ChainName;
pub use rule::{
    AddrMatch, Policy, PortMatch, ProtoMatch, Rule, StateMatch, Target, address_matches,
};
pub use ruleset::{BuildRefusal, CHAIN_LIMIT, FORWARD, INPUT, OUTPUT, RULE_LIMIT, Ruleset};
pub use slice::Slice;
