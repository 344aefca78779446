//! A parser for flow files in the syntax of `ovs-ofctl`.
#![tactic(auto)]

mod fault;
mod field;
mod given;
mod line;
mod whole;

pub use fault::{OfpFault, OfpWhy};
pub use whole::{BYTE_LIMIT, read};
