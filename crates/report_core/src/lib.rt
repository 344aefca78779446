//! The printed reports: on the invariants of a description, on its policy, and on a run of rules
//! over a list of events; and the line of a refusal.
#![tactic(auto)]

mod check;
mod flow_status;
mod line;
mod names;
mod policy;
mod refusal;
mod report;
mod run;

pub use check::check_report;
pub use line::push_numbered;
pub use names::push_flow;
pub use policy::{policy_report, report_of_policy};
pub use refusal::refusal_line;
pub use report::Report;
pub use run::{trace_rules, trace_table};
