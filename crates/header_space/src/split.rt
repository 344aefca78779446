//! Splits of boxes: a split separates a part from a box, and adds the rest of the box to the pending
//! boxes.

ghost use Rattle.std.specs.Prelude.{◌≡◌, ◌≤◌, IfOk};
ghost use Rattle.header_space.specs.Boxes.{IsBox, Narrows};
ghost use Rattle.header_space.specs.inner.Fields.{limit_of, number_of, up_to};
ghost use Rattle.header_space.specs.inner.Splitting.{Splits};

use crate::field::{Field, after, number_of, up_to};
use crate::packet_box::PacketBox;
use std::alloc::AllocError;

/// Splits a box into a part with the same least packet and boxes of all other packets.
pub(crate) fn split(
    boxes: &mut Vec<PacketBox>,
    whole: PacketBox,
    part: PacketBox,
) -> Result<(), AllocError>
    requires is_box { IsBox whole }
    requires part { Narrows whole part }
    ensures { IfOk result (λ _. Splits whole boxes.old.items boxes.new.items part) }
{
    let last = part.greatest;
    let left = split_at(boxes, Field::Src, whole, last.src)?;
    let left = split_at(boxes, Field::Dst, left, last.dst)?;
    let left = split_at(boxes, Field::Proto, left, last.proto as u32)?;
    let left = split_at(boxes, Field::Sport, left, last.sport as u32)?;
    let _part = split_at(boxes, Field::Dport, left, last.dport as u32)?;
    Ok(())
}

/// Splits a box at a number in a field. Returns the packets up to the number.
fn split_at(
    boxes: &mut Vec<PacketBox>,
    field: Field,
    whole: PacketBox,
    last: u32,
) -> Result<PacketBox, AllocError>
    requires is_box { IsBox whole }
    requires first { number_of field whole.least ≤ last }
    requires last { last ≤ number_of field whole.greatest }
    ensures part { IfOk result (λ part. part ≡ up_to field whole last) }
    ensures splits { IfOk result (Splits whole boxes.old.items boxes.new.items) }
{
    if last == number_of(field, whole.greatest) {
        return Ok(whole);
    }
    boxes.push(after(field, whole, last))?;
    Ok(up_to(field, whole, last))
}
