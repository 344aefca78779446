//! The answer of `topos-query flows` as JSON: the flows that rules let pass, and the dead rules. Its definition is in
//! `specs/FlowsJson.antt`.
#![tactic(auto)]

mod flows;
mod table_flows;

pub use flows::flows_json;
pub use table_flows::table_flows_json;
