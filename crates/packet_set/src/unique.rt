//! A hash table of nodes. Its reader compares the nodes, hence no proof depends on its content.

use crate::diagrams::NODE_LIMIT;
use crate::node::Node;
use std::alloc::{AllocError, Global};

/// The numbers of sets, at places that follow from the hashes of their nodes. A place with 0 is free.
#[derive(Drop)]
pub(crate) struct Unique {
    places: Vec<u32>,
}

/// The number of places at which the set of a node may be.
pub(crate) const TRIES: u32 = 32;

impl Unique {
    /// Returns an empty table with this number of places.
    pub(crate) fn new(alloc: Global, places: usize) -> Result<Unique, AllocError> {
        Ok(Unique {
            places: vec![in alloc; 0; places]?,
        })
    }

    /// Returns a table of the nodes, with eight places for each node.
    pub(crate) fn of(alloc: Global, nodes: &[Node]) -> Result<Unique, AllocError> {
        let mut unique = Unique::new(alloc, nodes.len().saturating_mul(8))?;
        let count = nodes.len().min(NODE_LIMIT);
        for set in 2..count {
            unique.enter(&nodes[set], set as u32);
        }
        Ok(unique)
    }

    /// Returns the number at one of the places of a node, or 0.
    pub(crate) fn entered(&self, node: &Node, step: u32) -> u32 {
        let size = self.places.len();
        if size == 0 {
            return 0;
        }
        self.places[hash_of(node).wrapping_add(step as usize) % size]
    }

    /// Enters the set of a node if one of the places of the node is free.
    pub(crate) fn enter(&mut self, node: &Node, set: u32) {
        let size = self.places.len();
        if size == 0 {
            return;
        }
        let first = hash_of(node);
        for step in 0..TRIES {
            let place = first.wrapping_add(step as usize) % size;
            if self.places[place] == 0 {
                self.places[place] = set;
                return;
            }
        }
    }
}

fn hash_of(node: &Node) -> usize {
    let children = place_of(node.low, node.high);
    let test = place_of(node.last, node.field.rank() as u32);
    children.wrapping_mul(31).wrapping_add(test)
}

/// Returns a place for two numbers in a table.
pub(crate) fn place_of(left: u32, right: u32) -> usize {
    let first = (left as usize).wrapping_mul(0x9E37_79B9_7F4A_7C15);
    let both = (first ^ (right as usize)).wrapping_mul(0xBF58_476D_1CE4_E5B9);
    both >> 17
}
