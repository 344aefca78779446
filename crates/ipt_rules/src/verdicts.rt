//! Verdicts of a rule set on packets and on boxes of packets.

ghost use Rattle.std.specs.Prelude.{◌≡◌, ◌<◌};
ghost use Rattle.host_net.specs.declared.packet.Packet.{Packet};
ghost use Rattle.header_space.specs.Boxes.{IsBox, IsIn, Narrows};
ghost use Rattle.ipt_rules.specs.Semantics.{HasVerdictIn};
ghost use Rattle.ipt_rules.specs.inner.OneOutcome.{HasVerdict};

use crate::packets::OnePacket;
use crate::ruleset::{FORWARD, Ruleset};
use crate::walk::verdict_in;
use header_space::PacketBox;
use host_net::{CtState, Packet, Verdict};

impl Ruleset {
    /// Returns the verdict on a packet that traverses `FORWARD` in this state. For many packets an `IndexedRuleset` is
    /// faster.
    pub fn verdict(&self, packet: &Packet, state: CtState) -> Verdict
        ensures { HasVerdict self.now packet.now state result }
    {
        self.verdict_in(FORWARD, packet, state)
    }

    /// Returns the verdict on a packet that traverses a built-in chain in this state: `INPUT`, `FORWARD` or
    /// `OUTPUT`.
    pub fn verdict_in(&self, chain: u16, packet: &Packet, state: CtState) -> Verdict
        requires { chain < 3 }
        ensures { HasVerdictIn self.now chain packet.now state result }
    {
        let chains = self.chains.as_slice();
        let mut packets = OnePacket {
            packet,
            indexes: &[],
        };
        verdict_in(chains, chain, &mut packets, state)
    }

    /// Returns the verdict on the least packet of a box that traverses `FORWARD` in this state. Narrows the
    /// box until all of its packets have this verdict.
    pub fn verdict_within(&self, within: &mut PacketBox, state: CtState) -> Verdict
        requires { IsBox within.old }
        ensures part { Narrows within.old within.new }
        ensures verdict { (p : Packet) → IsIn within.new p → HasVerdict self.now p state result }
    {
        let chains = self.chains.as_slice();
        verdict_in(chains, FORWARD, within, state)
    }
}
