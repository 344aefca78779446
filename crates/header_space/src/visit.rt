//! Visits of a box: a visitor receives the packets of the box in parts, and records facts about each
//! part.

ghost use Rattle.std.specs.Prelude.{IfOk};
ghost use Rattle.host_net.specs.declared.packet.Packet.{Packet};
ghost use Rattle.header_space.specs.declared.packet_box.PacketBox.{PacketBox};
ghost use Rattle.header_space.specs.Boxes.{IsBox, IsIn, Narrows};
ghost use Rattle.header_space.specs.Visits.{HasOnlyPacketsOf};
ghost use Rattle.header_space.specs.inner.Visiting.{Visits};

use crate::packet_box::PacketBox;
use crate::split::split;
use std::alloc::{AllocError, Global};

/// A visitor that records facts about packets, for a box of packets at a time.
pub trait Visitor: Sized {
    // The visitor has recorded the facts about a packet.
    ghost knows: { Self → Packet → Type 0 };

    // From the first to the second state, the visitor records only facts about packets of the box.
    ghost grows: { PacketBox → Self → Self → Type 0 };

    /// Records the facts about the least packet of a box. Narrows the box until it has recorded the facts
    /// about all packets of the narrowed box.
    fn visit(&mut self, within: &mut PacketBox)
        requires { IsBox within.old }
        ensures part { Narrows within.old within.new }
        ensures grows { grows within.new self.old self.new }
        ensures knows { (p : Packet) → IsIn within.new p → knows self.new p };

    // Reflexivity: no visit records no facts.
    ghost grows_by_none: { (b : PacketBox) (x : Self) → grows b x x };

    // Transitivity: two steps compose to one.
    ghost grows_by_both: { (b : PacketBox) (x y z : Self) → grows b x y → grows b y z → grows b x z };

    // Monotonicity: a step for a part of a box is a step for the box.
    ghost grows_by_more: { (b part : PacketBox) (x y : Self) → HasOnlyPacketsOf b part → grows part x y → grows b x y };

    // Recorded facts remain recorded.
    ghost keeps: { (b : PacketBox) (x y : Self) (p : Packet) → grows b x y → knows x p → knows y p };
}

/// Passes all packets of a box to a visitor. Makes one visit for each part to which the visitor narrows
/// the box.
pub fn visit_all<V: Visitor>(
    alloc: Global,
    visitor: &mut V,
    whole: PacketBox,
) -> Result<(), AllocError>
    requires { IsBox whole }
    ensures grows { V.grows whole visitor.old visitor.new }
    ensures knows { IfOk result (λ _. (p : Packet) → IsIn whole p → V.knows visitor.new p) }
{
    let mut boxes = Vec::new(alloc);
    boxes.push(whole)?;
    while let Some(next) = boxes.pop() {
        visit_box(visitor, &mut boxes, next)?;
    }
    Ok(())
}

/// Passes the first part of a box to a visitor. Adds boxes of the other packets to the pending boxes.
fn visit_box<V: Visitor>(
    visitor: &mut V,
    boxes: &mut Vec<PacketBox>,
    whole: PacketBox,
) -> Result<(), AllocError>
    requires { IsBox whole }
    ensures grows { V.grows whole visitor.old visitor.new }
    ensures visits { IfOk result (λ _. Visits (V.knows visitor.new) whole boxes.old.items boxes.new.items) }
{
    let mut part = whole;
    visitor.visit(&mut part);
    split(boxes, whole, part)
}
