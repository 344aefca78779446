//! The rules that accept new packets of a range of services between two sets of addresses.

ghost use Rattle.std.specs.Prelude.{◌↔◌, ◌<◌, ◌∷◌, [], IfOk};
ghost use Rattle.std.specs.List.{All};
ghost use Rattle.host_net.specs.declared.packet.Packet.{Packet};
ghost use Rattle.header_space.specs.Boxes.{IsBox};
ghost use Rattle.rules_space.specs.RulesView.{rules_of};
ghost use Rattle.header_space.specs.Owners.{IsRange};
ghost use Rattle.pass_core.specs.Services.{service_count};
ghost use Rattle.decide_core.specs.Deciders.{AreDeciders, IsInOne};
ghost use Rattle.decide_core.specs.ServiceRanges.{HasServiceBetween};
ghost use Rattle.decide_core.specs.inner.ServiceBoxes.{AddsBoxes};

use crate::deciders::{Deciders, deciders_of};
use crate::service_block::push_services;
use header_space::{AddressRange, PacketBox};
use rules_space::RulesRef;
use std::alloc::{AllocError, Global};

/// Returns the rules that decide new packets from one set of addresses to another such that they pass. Only
/// packets with services from `low` to `high` count. The number of a service is `65536 * protocol + port`.
pub fn deciders_between(
    alloc: Global,
    text: &RulesRef<'_>,
    from: &[AddressRange],
    to: &[AddressRange],
    low: u32,
    high: u32,
) -> Result<Deciders, AllocError>
    requires from { All IsRange from.now }
    requires to { All IsRange to.now }
    requires services { high < service_count }
    ensures { IfOk result (AreDeciders (rules_of text.now) (HasServiceBetween from.now to.now low high)) }
{
    let boxes = boxes_between(alloc, from, to, low, high)?;
    let deciders = deciders_of(alloc, text, &boxes)?;
    Ok(deciders)
}

/// Returns boxes of the packets from one set of addresses to another with services in a range.
fn boxes_between(
    alloc: Global,
    from: &[AddressRange],
    to: &[AddressRange],
    low: u32,
    high: u32,
) -> Result<Vec<PacketBox>, AllocError>
    requires from { All IsRange from.now }
    requires to { All IsRange to.now }
    requires services { high < service_count }
    ensures boxes { IfOk result (λ boxes. All IsBox boxes.items) }
    ensures exact { IfOk result (λ boxes. (p : Packet) → IsInOne boxes.items p ↔ HasServiceBetween from.now to.now low high p) }
{
    let mut boxes = Vec::new(alloc);
    for source in from {
        push_row(&mut boxes, *source, to, low, high)?;
    }
    Ok(boxes)
}

/// Appends the boxes of the packets from one range of addresses.
fn push_row(
    boxes: &mut Vec<PacketBox>,
    source: AddressRange,
    to: &[AddressRange],
    low: u32,
    high: u32,
) -> Result<(), AllocError>
    requires source { IsRange source }
    requires to { All IsRange to.now }
    requires services { high < service_count }
    ensures { IfOk result (λ _. AddsBoxes (HasServiceBetween (source ∷ []) to.now low high) boxes.old.items boxes.new.items) }
{
    for target in to {
        push_services(boxes, source, *target, low, high)?;
    }
    Ok(())
}
