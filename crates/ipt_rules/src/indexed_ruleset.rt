//! A rule set with indexes of its rules, to evaluate many packets.

ghost use Rattle.std.specs.Prelude.{◌≡◌, ◌<◌, ◌≤◌, IfOk, Some, None};
ghost use Rattle.ipt_rules.specs.Semantics.{HasVerdictIn};
ghost use Rattle.ipt_rules.specs.inner.OneOutcome.{HasVerdict};

use crate::next::indexes_of;
use crate::packets::OnePacket;
use crate::ruleset::{FORWARD, Ruleset};
use crate::walk::verdict_in;
use host_net::{CtState, Packet, TupleSpaceIndex, Verdict};
use std::alloc::{AllocError, Global};
use std::marker::Model;

/// An index of the rules pays off for more packets than this number.
const FEW_PACKETS: usize = 64;

/// A rule set with indexes, to evaluate many packets.
#[derive(Drop)]
pub struct IndexedRuleset<'a> {
    rules: &'a Ruleset,
    /// An index of the addresses that the rules of each chain match on, or no indexes at all.
    indexes: Vec<TupleSpaceIndex>,
}

impl<'a> Model for IndexedRuleset<'a> {
    ghost use Rattle.std.specs.Prelude.{List};
    ghost use Rattle.ipt_rules.specs.Chain.{Chain};
    ghost use Rattle.ipt_rules.specs.inner.Next.{AreIndexes};

    ghost Value = { List Chain };

    ghost view = { λ f. f.rules.now };

    ghost invariant = { λ f. AreIndexes f.indexes.items f.rules.now };
}

impl<'a> IndexedRuleset<'a> {
    /// Returns the rule set with indexes, if they pay off for this number of packets.
    pub fn of(
        alloc: Global,
        rules: &'a Ruleset,
        packets: usize,
    ) -> Result<IndexedRuleset<'a>, AllocError>
        ensures { IfOk result (λ filter. filter ≡ rules.now) }
    {
        let indexes = if packets > FEW_PACKETS {
            indexes_of(alloc, &rules.chains)?
        } else {
            Vec::new(alloc)
        };
        Ok(IndexedRuleset { rules, indexes })
    }

    /// Returns its rules.
    pub fn ruleset(&self) -> &'a Ruleset
        ensures { result.now ≡ self.now }
    {
        self.rules
    }

    /// Returns the verdict on a packet that traverses `FORWARD` in this state.
    pub fn verdict(&self, packet: &Packet, state: CtState) -> Verdict
        ensures { HasVerdict self.now packet.now state result }
    {
        self.verdict_in(FORWARD, packet, state)
    }

    /// Returns the verdict on a packet that traverses a built-in chain in this state: `INPUT`, `FORWARD` or
    /// `OUTPUT`.
    pub fn verdict_in(&self, chain: u16, packet: &Packet, state: CtState) -> Verdict
        requires { chain < 3 }
        ensures { HasVerdictIn self.now chain packet.now state result }
    {
        let rules: &Ruleset = self.rules;
        let chains = rules.chains.as_slice();
        let mut packets = OnePacket {
            packet,
            indexes: &self.indexes,
        };
        verdict_in(chains, chain, &mut packets, state)
    }
}
