//! Nodes of decision diagrams.

use crate::field::Field;

/// A node: a test of a field, the set `low` for the packets whose field is at most `last`, and the set `high` for the
/// other packets.
#[derive(Clone, Copy, Debug, PartialEq, Eq)]
pub struct Node {
    pub field: Field,
    pub last: u32,
    pub low: u32,
    pub high: u32,
}
