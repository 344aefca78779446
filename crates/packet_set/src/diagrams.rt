//! Decision diagrams that share their nodes.

ghost use Rattle.std.specs.Prelude.{◌≡◌, ◌<◌, ◌≤◌, length, true, false, IfOk, IfErr, IfSome};
ghost use Rattle.host_net.specs.declared.packet.Packet.{Packet};
ghost use Rattle.packet_set.specs.Nodes.{has, next_of, node_at, AreNodes};
ghost use Rattle.packet_set.specs.Sets.{combined, IsRefusedBy, IsSet, Keeps};
ghost use Rattle.packet_set.specs.inner.Kept.{IsRight};

use crate::combine::Operation;
use crate::field::Field;
use crate::node::Node;
use crate::refusal::SetRefusal;
use crate::unique::{TRIES, Unique, place_of};
use std::alloc::{AllocError, Global};
use std::marker::Model;

/// Sets of packets, each named by a number. Set 0 is empty, and set 1 has every packet. A number names a set of the
/// diagrams that returned it, and of no others.
#[derive(Drop)]
pub struct Diagrams {
    pub(crate) nodes: Vec<Node>,
    /// A hash table of the nodes. It may lack a node.
    pub(crate) unique: Unique,
    /// A hash table of results of operations.
    pub(crate) memo: Vec<Entry>,
    alloc: Global,
}

/// A result of an operation on two sets.
#[derive(Clone, Copy)]
pub(crate) struct Entry {
    pub(crate) operation: Operation,
    pub(crate) left: u32,
    pub(crate) right: u32,
    pub(crate) set: u32,
}

/// The maximum number of nodes, with the two that stand for sets 0 and 1.
pub const NODE_LIMIT: usize = 1 << 20;

/// The initial number of places for results.
const FIRST_RESULTS: usize = 1 << 6;

/// A result that holds in all diagrams, for a place without another result.
const NO_RESULT: Entry = Entry {
    operation: Operation::Union,
    left: EMPTY,
    right: EMPTY,
    set: EMPTY,
};

impl Model for Diagrams {
    ghost use Rattle.std.specs.Prelude.{List};
    ghost use Rattle.packet_set.specs.declared.node.Node.{Node};
    ghost use Rattle.packet_set.specs.inner.Kept.{AreKept};

    ghost Value = { List Node };

    ghost view = { λ d. d.nodes.items };

    ghost invariant = { λ d. AreKept d.nodes.items d.memo.items };
}

/// The empty set.
pub(crate) const EMPTY: u32 = 0;

/// The set of all packets.
pub(crate) const EVERY: u32 = 1;

impl Diagrams {
    /// Returns diagrams with two sets: the empty set, and the set of all packets.
    pub fn new(alloc: Global) -> Result<Diagrams, AllocError>
        ensures { IfOk result (λ d. length d ≡ 2) }
    {
        let none = Node {
            field: Field::Proto,
            last: 0,
            low: 0,
            high: 0,
        };
        let mut nodes = Vec::new(alloc);
        nodes.push(none)?;
        nodes.push(none)?;
        Ok(Diagrams {
            nodes,
            unique: Unique::new(alloc, 2 * FIRST_RESULTS)?,
            memo: vec![in alloc; NO_RESULT; FIRST_RESULTS]?,
            alloc,
        })
    }

    /// Returns the empty set.
    pub fn empty(&self) -> u32
        ensures { IsSet self.now result (λ p. false) }
    {
        // The use of this field makes the invariant known.
        let _nodes = &self.nodes;
        EMPTY
    }

    /// Whether a set is known to have no packets, by its number. Sets with other numbers may have no packets either.
    pub fn is_empty(&self, set: u32) -> bool
        ensures { result ≡ true → (p : Packet) → has self.now set p ≡ false }
    {
        set == EMPTY
    }

    /// Returns the set of all packets.
    pub fn every(&self) -> u32
        ensures { IsSet self.now result (λ p. true) }
    {
        // The use of this field makes the invariant known.
        let _nodes = &self.nodes;
        EVERY
    }

    /// Returns the set of a node: the packets of `low` whose field is at most `last`, and the packets of `high`
    /// whose field is greater.
    pub(crate) fn make(&mut self, node: Node) -> Result<u32, SetRefusal>
        requires low { node.low < length self.old }
        requires high { node.high < length self.old }
        ensures keeps { Keeps self.old self.new }
        ensures set { IfOk result (λ set. IsSet self.new set (λ p. has self.old (next_of node p) p)) }
        ensures refused { IfErr result (IsRefusedBy self.new) }
    {
        if node.low == node.high {
            return Ok(node.low);
        }
        if let Some(set) = self.find(&node) {
            return Ok(set);
        }
        let set = self.nodes.len();
        if set >= NODE_LIMIT {
            return Err(SetRefusal::TooManyNodes);
        }
        self.nodes.push(node)?;
        self.unique.enter(&node, set as u32);
        Ok(set as u32)
    }

    /// Returns the set of an equal node, if the table has one.
    fn find(&self, node: &Node) -> Option<u32>
        ensures { IfSome result (λ set. (2 ≤ set) × (set < length self.now) × (node_at self.now set ≡ node.now)) }
    {
        for step in 0..TRIES {
            let set = self.unique.entered(node, step);
            if set < 2 {
                return None;
            }
            if self.is_node(set, node) {
                return Some(set);
            }
        }
        None
    }

    /// Whether the node of a set is this node.
    fn is_node(&self, set: u32, node: &Node) -> bool
        ensures { result ≡ true → (set < length self.now) × (node_at self.now set ≡ node.now) }
    {
        if set as usize >= self.nodes.len() {
            return false;
        }
        self.nodes[set as usize] == *node
    }

    /// Returns the stored result of an operation on two sets, if there is one.
    pub(crate) fn remembered(&self, operation: Operation, left: u32, right: u32) -> Option<u32>
        ensures { IfSome result (λ set. IsSet self.now set (λ p. combined operation (has self.now left p) (has self.now right p))) }
    {
        let size = self.memo.len();
        if size == 0 {
            return None;
        }
        let entry = self.memo[place_of(left, right) % size];
        if entry.left == left && entry.right == right && entry.operation == operation {
            return Some(entry.set);
        }
        None
    }

    /// Stores a result. If there are more nodes than places for results, enlarges the tables first.
    pub(crate) fn remember(&mut self, entry: Entry)
        requires { IsRight self.old entry }
        ensures { self.new ≡ self.old }
    {
        if self.nodes.len() > self.memo.len() {
            self.enlarge();
        }
        self.put(entry);
    }

    /// Stores a result, in place of another one with the same hash.
    fn put(&mut self, entry: Entry)
        requires { IsRight self.old entry }
        ensures { self.new ≡ self.old }
    {
        let size = self.memo.len();
        if size == 0 {
            return;
        }
        self.memo[place_of(entry.left, entry.right) % size] = entry;
    }

    /// Enlarges the tables if memory suffices. The stored results are then lost.
    fn enlarge(&mut self)
        ensures { self.new ≡ self.old }
    {
        let size = self.nodes.len().saturating_mul(4);
        let Ok(memo) = vec![in self.alloc; NO_RESULT; size] else {
            return;
        };
        let Ok(unique) = Unique::of(self.alloc, &self.nodes) else {
            return;
        };
        self.memo = memo;
        self.unique = unique;
    }
}
