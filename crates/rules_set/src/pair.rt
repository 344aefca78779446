//! The packets from one set of addresses to another: the packets that rules forward, and the others.

ghost use Rattle.std.specs.Prelude.{◌≡◌, IfErr, IfOk};
ghost use Rattle.host_net.specs.declared.packet.Packet.{Packet};
ghost use Rattle.header_space.specs.Boxes.{IsIn};
ghost use Rattle.header_space.specs.Owners.{GoesBetween};
ghost use Rattle.packet_set.specs.Sets.{IsRefusedBy, Keeps};
ghost use Rattle.rules_set.specs.Pairs.{ArePairSets};

use crate::accepted::accepted_by;
use header_space::{AddressRange, PacketBox};
use host_net::CtState;
use ipt_rules::ChainsRef;
use packet_set::{Diagrams, Field, Operation, SetRefusal};
use std::alloc::Global;

/// The packets from one set of addresses to another, as sets: the packets that rules forward, and the others.
#[derive(Clone, Copy, Debug, PartialEq, Eq)]
pub struct PairSets {
    pub passing: u32,
    pub staying: u32,
}

impl PairSets {
    /// Returns the packets from one set of addresses to another that the chains forward in a state, and the others.
    /// The rules are evaluated on the box only.
    pub fn of(
        alloc: Global,
        diagrams: &mut Diagrams,
        rules: &ChainsRef<'_>,
        state: CtState,
        from: &[AddressRange],
        to: &[AddressRange],
        within: &PacketBox,
    ) -> Result<PairSets, SetRefusal>
        requires { (p : Packet) → GoesBetween from.now to.now p → IsIn within.now p }
        ensures keeps { Keeps diagrams.old diagrams.new }
        ensures sets { IfOk result (ArePairSets rules.now state from.now to.now diagrams.new) }
        ensures refused { IfErr result (IsRefusedBy diagrams.new) }
    {
        let accepted = accepted_by(alloc, diagrams, rules, state, within)?;
        let every = diagrams.every();
        let into = diagrams.among(Field::Dst, to, every)?;
        let between = diagrams.among(Field::Src, from, into)?;
        let passing = diagrams.combine(Operation::Intersection, between, accepted)?;
        let staying = diagrams.combine(Operation::Difference, between, accepted)?;
        Ok(PairSets { passing, staying })
    }
}
