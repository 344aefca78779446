//! Rules of both dialects as questions see them: one type for all rules and for the rules of a slice.
#![tactic(auto)]

mod held_rules;
mod rules_ref;

pub use held_rules::HeldRules;
pub use rules_ref::RulesRef;
