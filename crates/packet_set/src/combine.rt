//! The union, the intersection and the difference of two sets.

ghost use Rattle.std.specs.Prelude.{◌≡◌, ◌⊎◌, ◌+◌, ◌<◌, ◌≤◌, length, Bool, List, IfErr, IfOk, IfSome, IfNone};
ghost use Rattle.host_net.specs.declared.packet.Packet.{Packet};
ghost use Rattle.packet_set.specs.Nodes.{has};
ghost use Rattle.packet_set.specs.declared.node.Node.{Node};
ghost use Rattle.packet_set.specs.declared.combine.Operation.TheVariants.{Union, Intersection, Difference};
ghost use Rattle.packet_set.specs.Sets.{combined, IsRefusedBy, IsSet, Keeps};
ghost use Rattle.packet_set.specs.inner.Branching.{HasTest, IsBranched, IsLess};

use crate::diagrams::{Diagrams, EMPTY, EVERY, Entry};
use crate::field::Field;
use crate::node::Node;
use crate::refusal::SetRefusal;

/// An operation on two sets. The difference has the packets of the left set that are not in the right set.
#[derive(Clone, Copy, Debug, PartialEq, Eq)]
pub enum Operation {
    Union,
    Intersection,
    Difference,
}

/// A test of a packet: whether a field is at most `last`.
#[derive(Clone, Copy)]
pub(crate) struct Test {
    pub(crate) field: Field,
    pub(crate) last: u32,
}

/// The branches of a set at a test. Set `low` equals it on the packets that pass the test, set `high` on the
/// other packets.
#[derive(Clone, Copy)]
pub(crate) struct Branches {
    pub(crate) low: u32,
    pub(crate) high: u32,
}

impl Diagrams {
    /// Returns the result of an operation on two sets.
    pub fn combine(
        &mut self,
        operation: Operation,
        left: u32,
        right: u32,
    ) -> Result<u32, SetRefusal>
        requires left { left < length self.old }
        requires right { right < length self.old }
        ensures keeps { Keeps self.old self.new }
        ensures set { IfOk result (λ set. IsSet self.new set (λ p. combined operation (has self.old left p) (has self.old right p))) }
        ensures refused { IfErr result (IsRefusedBy self.new) }
    {
        // The use of this field makes the invariant known.
        let _nodes = &self.nodes;
        if let Some(known) = known(operation, left, right) {
            return Ok(known);
        }
        if let Some(set) = self.remembered(operation, left, right) {
            return Ok(set);
        }
        let test = self.first_test(left, right);
        let of_left = self.branches(left, test);
        let of_right = self.branches(right, test);
        let low = self.combine(operation, of_left.low, of_right.low)?;
        let high = self.combine(operation, of_left.high, of_right.high)?;
        let set = self.make(Node {
            field: test.field,
            last: test.last,
            low,
            high,
        })?;
        self.remember(Entry {
            operation,
            left,
            right,
            set,
        });
        Ok(set)
    }

    /// Returns the earlier of the tests of two sets, by the order of their fields and then by their numbers.
    fn first_test(&self, left: u32, right: u32) -> Test
        requires left { left < length self.now }
        requires right { right < length self.now }
        requires some { (2 ≤ left) ⊎ (2 ≤ right) }
        ensures { HasTest self.now left result ⊎ HasTest self.now right result }
    {
        if left < 2 {
            return self.test(right);
        }
        if right < 2 {
            return self.test(left);
        }
        earlier(self.test(left), self.test(right))
    }

    /// Returns the test of the node of a set.
    fn test(&self, set: u32) -> Test
        requires there { set < length self.now }
        requires some { 2 ≤ set }
        ensures { HasTest self.now set result }
    {
        let node = self.nodes[set as usize];
        Test {
            field: node.field,
            last: node.last,
        }
    }

    /// Returns the branches of a set at a test.
    fn branches(&self, set: u32, test: Test) -> Branches
        requires { set < length self.now }
        ensures same { IsBranched self.now set test result }
        ensures less { HasTest self.now set test → IsLess set result }
    {
        let whole = Branches {
            low: set,
            high: set,
        };
        if set < 2 {
            return whole;
        }
        let node = self.nodes[set as usize];
        if node.field.rank() != test.field.rank() || node.last < test.last {
            return whole;
        }
        if node.last == test.last {
            return Branches {
                low: node.low,
                high: node.high,
            };
        }
        Branches {
            low: node.low,
            high: set,
        }
    }
}

/// Returns the earlier of two tests.
fn earlier(left: Test, right: Test) -> Test
    ensures { (result ≡ left) ⊎ (result ≡ right) }
{
    let (one, two) = (left.field.rank(), right.field.rank());
    if one < two || (one == two && left.last <= right.last) {
        left
    } else {
        right
    }
}

/// Returns the result of an operation if it is known without the nodes: the empty set, the set of all packets, or one of
/// the two sets.
fn known(operation: Operation, left: u32, right: u32) -> Option<u32>
    ensures within { IfSome result (λ set. (set < 2) ⊎ ((set ≡ left) ⊎ (set ≡ right))) }
    ensures exact { IfSome result (λ set. (nodes : List Node) (p : Packet) → has nodes set p ≡ combined operation (has nodes left p) (has nodes right p)) }
    ensures some { IfNone result ((2 ≤ left) ⊎ (2 ≤ right)) }
{
    match operation {
        Operation::Union => united(left, right),
        Operation::Intersection => shared(left, right),
        Operation::Difference => removed(left, right),
    }
}

fn united(left: u32, right: u32) -> Option<u32>
    ensures within { IfSome result (λ set. (set < 2) ⊎ ((set ≡ left) ⊎ (set ≡ right))) }
    ensures exact { IfSome result (λ set. (nodes : List Node) (p : Packet) → has nodes set p ≡ combined Union (has nodes left p) (has nodes right p)) }
    ensures some { IfNone result ((2 ≤ left) ⊎ (2 ≤ right)) }
{
    if left == EMPTY {
        return Some(right);
    }
    if right == EMPTY {
        return Some(left);
    }
    if left == EVERY {
        return Some(EVERY);
    }
    if right == EVERY {
        return Some(EVERY);
    }
    if left == right {
        return Some(left);
    }
    None
}

fn shared(left: u32, right: u32) -> Option<u32>
    ensures within { IfSome result (λ set. (set < 2) ⊎ ((set ≡ left) ⊎ (set ≡ right))) }
    ensures exact { IfSome result (λ set. (nodes : List Node) (p : Packet) → has nodes set p ≡ combined Intersection (has nodes left p) (has nodes right p)) }
    ensures some { IfNone result ((2 ≤ left) ⊎ (2 ≤ right)) }
{
    if left == EMPTY {
        return Some(EMPTY);
    }
    if right == EMPTY {
        return Some(EMPTY);
    }
    if left == EVERY {
        return Some(right);
    }
    if right == EVERY {
        return Some(left);
    }
    if left == right {
        return Some(left);
    }
    None
}

fn removed(left: u32, right: u32) -> Option<u32>
    ensures within { IfSome result (λ set. (set < 2) ⊎ ((set ≡ left) ⊎ (set ≡ right))) }
    ensures exact { IfSome result (λ set. (nodes : List Node) (p : Packet) → has nodes set p ≡ combined Difference (has nodes left p) (has nodes right p)) }
    ensures some { IfNone result ((2 ≤ left) ⊎ (2 ≤ right)) }
{
    if left == EMPTY {
        return Some(EMPTY);
    }
    if right == EVERY {
        return Some(EMPTY);
    }
    if right == EMPTY {
        return Some(left);
    }
    if left == right {
        return Some(EMPTY);
    }
    None
}
