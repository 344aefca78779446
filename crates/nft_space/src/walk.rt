//! The walk of the packets of a box through the rules of a table.

ghost use Rattle.host_net.specs.declared.packet.Packet.{Packet};
ghost use Rattle.header_space.specs.Boxes.{IsBox, IsIn, Narrows};
ghost use Rattle.nft_rules.specs.Loadable.{IsLoadable};
ghost use Rattle.nft_rules.specs.Semantics.{PassesTable};
ghost use Rattle.nft_space.specs.inner.First.{Ascend, First};

use crate::rule::rule_within;
use header_space::PacketBox;
use host_net::CtState;
use nft_rules::{Rule, Table, Verdict};

/// Whether a table forwards the packets of a box in a state. Narrows the box until the result is the
/// same for all of its packets.
pub(crate) fn walk(table: &Table, within: &mut PacketBox, state: CtState) -> bool
    requires is_box { IsBox within.old }
    requires loadable { IsLoadable table.now }
    ensures part { Narrows within.old within.new }
    ensures passes { (p : Packet) → IsIn within.new p → PassesTable table.now state p result }
{
    let mut rules = table.forward.as_slice();
    let mut below = table.chains.len();
    while let Some(verdict) = first_within(rules, within, state) {
        match verdict {
            Verdict::Accept => return true,
            Verdict::Drop => return false,
            Verdict::Goto(chain) => {
                below = chain as usize;
                rules = &table.chains[below].rules;
            }
        }
    }
    false
}

/// Returns the first verdict of the rules on the packets of a box, or `None`. Narrows the box until
/// this is the same for all of its packets.
fn first_within(rules: &[Rule], within: &mut PacketBox, state: CtState) -> Option<Verdict>
    requires is_box { IsBox within.old }
    requires ascend { Ascend rules.now }
    ensures part { Narrows within.old within.new }
    ensures first { (p : Packet) → IsIn within.new p → First state p rules.now result }
{
    for rule in rules {
        if let Some(verdict) = rule_within(rule, within, state) {
            return Some(verdict);
        }
    }
    None
}
