//! Sets of packets as decision diagrams. A node tests whether a field of a packet is at most a number. It leads
//! to one set if the test holds, and to another set otherwise. Sets share their nodes. Hence a set that is a
//! union of many boxes of packets may need few nodes of its own.
#![tactic(auto)]

mod combine;
mod diagrams;
mod field;
mod find;
mod member;
mod node;
mod ranges;
mod refusal;
mod unique;

pub use combine::Operation;
pub use diagrams::{Diagrams, NODE_LIMIT};
pub use field::Field;
pub use find::Found;
pub use node::Node;
pub use refusal::SetRefusal;
