//! Tables of nftables that filter forwarded packets: the base chain `forward`, whose policy is to
//! drop, and other chains, which `goto` enters. A rule is a verdict map by address, or a verdict for
//! the packets of a service or a connection state.
#![tactic(auto)]

mod table;

pub use table::{
    Chain, Element, End, MatchRule, PortMatch, Rule, ServiceMatch, Table, Verdict, VerdictMap,
};
