//! Sets of the packets whose fields lie in ranges.

ghost use Rattle.std.specs.Prelude.{◌≡◌, ◌<◌, ◌≤◌, ◌&&◌, ◌||◌, length, if◌then◌else◌, IfErr, IfOk};
ghost use Rattle.packet_set.specs.Nodes.{has, number_of};
ghost use Rattle.packet_set.specs.Sets.{IsRefusedBy, IsSet, Keeps, is_among, match_of};
ghost use Rattle.header_space.specs.Matching.{field_fits, fits, lies_in, range_fits};

use crate::combine::Operation;
use crate::diagrams::{Diagrams, EMPTY, EVERY};
use crate::field::Field;
use crate::node::Node;
use crate::refusal::SetRefusal;
use header_space::{AddressRange, FieldMatch, HeaderMatch};

impl Diagrams {
    /// Returns the set of the packets that a match selects.
    pub fn matching(&mut self, asked: &HeaderMatch) -> Result<u32, SetRefusal>
        ensures keeps { Keeps self.old self.new }
        ensures set { IfOk result (λ set. IsSet self.new set (λ p. fits asked.now p)) }
        ensures refused { IfErr result (IsRefusedBy self.new) }
    {
        // The use of this field makes the invariant known.
        let _nodes = &self.nodes;
        let sport = self.within(Field::Sport, asked.sport, EVERY)?;
        let dst = self.within(Field::Dst, asked.dst, sport)?;
        let src = self.within(Field::Src, asked.src, dst)?;
        let dport = self.within(Field::Dport, asked.dport, src)?;
        self.within(Field::Proto, asked.proto, dport)
    }

    /// Returns the set of the packets of a set whose field matches.
    pub fn within(
        &mut self,
        field: Field,
        asked: Option<FieldMatch>,
        set: u32,
    ) -> Result<u32, SetRefusal>
        requires { set < length self.old }
        ensures keeps { Keeps self.old self.new }
        ensures set { IfOk result (λ part. IsSet self.new part (λ p. field_fits asked (number_of field p) && has self.old set p)) }
        ensures refused { IfErr result (IsRefusedBy self.new) }
    {
        match asked {
            None => Ok(set),
            Some(range) => self.in_range(field, range, set),
        }
    }

    /// Returns the set of the packets of a set whose address in a field is in one of the ranges. The cost is linear in
    /// the number of ranges if these are in ascending order.
    pub fn among(
        &mut self,
        field: Field,
        ranges: &[AddressRange],
        set: u32,
    ) -> Result<u32, SetRefusal>
        requires { set < length self.old }
        ensures keeps { Keeps self.old self.new }
        ensures set { IfOk result (λ part. IsSet self.new part (λ p. is_among ranges.now (number_of field p) && has self.old set p)) }
        ensures refused { IfErr result (IsRefusedBy self.new) }
    {
        // The use of this field makes the invariant known.
        let _nodes = &self.nodes;
        let mut found = EMPTY;
        let mut left = ranges.len();
        while left > 0 {
            left -= 1;
            found = self.with_range(field, ranges[left], set, found)?;
        }
        Ok(found)
    }

    /// Returns the union of a set and the packets of another set whose address in a field is in a range.
    fn with_range(
        &mut self,
        field: Field,
        range: AddressRange,
        set: u32,
        found: u32,
    ) -> Result<u32, SetRefusal>
        requires set { set < length self.old }
        requires found { found < length self.old }
        ensures keeps { Keeps self.old self.new }
        ensures set { IfOk result (λ part. IsSet self.new part (λ p. has self.old found p || (lies_in (match_of range) (number_of field p) && has self.old set p))) }
        ensures refused { IfErr result (IsRefusedBy self.new) }
    {
        let asked = FieldMatch {
            low: range.first,
            high: range.last,
            negated: false,
        };
        let part = self.within(field, Some(asked), set)?;
        self.combine(Operation::Union, found, part)
    }

    /// Returns the set of the packets of a set whose field matches a range.
    fn in_range(&mut self, field: Field, range: FieldMatch, set: u32) -> Result<u32, SetRefusal>
        requires { set < length self.old }
        ensures keeps { Keeps self.old self.new }
        ensures set { IfOk result (λ part. IsSet self.new part (λ p. range_fits range (number_of field p) && has self.old set p)) }
        ensures refused { IfErr result (IsRefusedBy self.new) }
    {
        if range.negated {
            self.choose(field, range, EMPTY, set)
        } else {
            self.choose(field, range, set, EMPTY)
        }
    }

    /// Returns the set of the packets of one set whose field is in a range, and of the packets of another set whose field
    /// is not.
    fn choose(
        &mut self,
        field: Field,
        range: FieldMatch,
        inside: u32,
        outside: u32,
    ) -> Result<u32, SetRefusal>
        requires inside { inside < length self.old }
        requires outside { outside < length self.old }
        ensures keeps { Keeps self.old self.new }
        ensures set { IfOk result (λ part. IsSet self.new part (λ p. if lies_in range (number_of field p) then has self.old inside p else has self.old outside p)) }
        ensures refused { IfErr result (IsRefusedBy self.new) }
    {
        let upper = self.make(Node {
            field,
            last: range.high,
            low: inside,
            high: outside,
        })?;
        if range.low == 0 {
            return Ok(upper);
        }
        self.make(Node {
            field,
            last: range.low - 1,
            low: outside,
            high: upper,
        })
    }
}
