//! An example of a template outside the ten: it bounds the number of flows that each host sends. It
//! shows what the author of a template writes and proves, and that the permitted policy and its
//! stateful flows need nothing else.
#![tactic(auto)]

mod limit;
#[cfg(test)]
mod steps_only;
#[cfg(test)]
mod tests;

pub use limit::OutLimit;
