//! Appends JSON to a text: values, strings, arrays, and the hosts, flows and services of a network.
//!
//! The answers of `topos-query` are written with these calls. The definition of each text is in `specs/Json.antt`. A writer
//! of items (`ItemWriter`) states which items it accepts and the JSON of each; `push_array` appends an array of them.
#![tactic(auto)]

mod array;
mod names;
mod values;

pub use array::{ItemWriter, push_array};
pub use names::{
    ServiceWriter, push_flow, push_flows, push_host, push_hosts, push_numbers, push_owner,
};
pub use values::{
    push, push_bool, push_decimal, push_escaped, push_number, push_rule_number, push_string,
};
