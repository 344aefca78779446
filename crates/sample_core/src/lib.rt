//! The sample: a description with a given number of hosts, the sizes of its policy, rules and offending sets,
//! and the number of packets that the rules forward.
#![tactic(auto)]

mod counts;
mod description;
mod packets;
mod printed;
mod run;
mod table;

pub use counts::TableLines;
pub use description::sample_description;
pub use printed::sample_text;
