//! Audits whether rules implement a policy.
#![tactic(auto)]

mod classes;
mod comparison;
mod cuts;
mod difference;
mod fault;
mod finding;
mod kind;
mod laws;
mod list_end;
mod named;
mod pairs;
mod part;
mod report;
mod sources;

pub use comparison::{audit, audit_policy, compare_policy};
pub use difference::Difference;
pub use finding::{AuditRefusal, Finding, Trace};
pub use kind::Kind;
pub use laws::{classes_are_uniform, equal_is_expected, short_lists_suffice};
pub use pairs::compare_pairs;
pub use report::{classes_line, finding_text, push_address, push_packet_text};
pub use rules_space::RulesRef as Text;
