//! The rules that accept new packets.

ghost use Rattle.std.specs.Prelude.{IfOk};
ghost use Rattle.std.specs.List.{All};
ghost use Rattle.header_space.specs.Boxes.{IsBox};
ghost use Rattle.rules_space.specs.RulesView.{rules_of};
ghost use Rattle.decide_core.specs.Deciders.{AreDeciders, IsInOne};

use crate::deciding::Deciding;
use header_space::PacketBox;
use ipt_rules::Place;
use rules_space::RulesRef;
use std::alloc::{AllocError, Global};

/// The rules that decide packets such that they pass.
#[derive(Drop)]
pub struct Deciders {
    /// The places of the rules, in ascending order. Entry k of a flow table has place k of chain 0.
    pub places: Vec<Place>,
    /// Whether some packet passes by default: no rule decides it, and the policy of `FORWARD` accepts it.
    /// False for a flow table: a table miss drops the packet.
    pub by_default: bool,
}

/// Returns the rules that decide new packets of the boxes such that they pass.
///
/// Costs two traversals for each box of packets that the rules distinguish.
pub fn deciders_of(
    alloc: Global,
    text: &RulesRef<'_>,
    boxes: &[PacketBox],
) -> Result<Deciders, AllocError>
    requires { All IsBox boxes.now }
    ensures { IfOk result (AreDeciders (rules_of text.now) (IsInOne boxes.now)) }
{
    let deciding = Deciding::of(alloc, text, true, boxes)?;
    let places = deciding.places(alloc)?;
    Ok(Deciders {
        places,
        by_default: deciding.by_default(),
    })
}
