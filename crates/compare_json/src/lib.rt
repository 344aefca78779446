//! The answer of `topos-query compare` as JSON: the differences between rules and a policy. Its definition is in
//! `specs/CompareJson.antt`.
#![tactic(auto)]

mod compare;

pub use compare::compare_json;
