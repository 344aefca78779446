//! Boxes of the packets of a range of services.

ghost use Rattle.std.specs.Prelude.{◌↔◌, ◌≤◌, ◌<◌, IsTrue, IfOk};
ghost use Rattle.std.specs.List.{All};
ghost use Rattle.host_net.specs.declared.packet.Packet.{Packet};
ghost use Rattle.header_space.specs.Boxes.{IsBox, IsIn};
ghost use Rattle.header_space.specs.Owners.{IsRange};
ghost use Rattle.pass_core.specs.Services.{service_count};
ghost use Rattle.decide_core.specs.Deciders.{IsInOne};
ghost use Rattle.decide_core.specs.ServiceRanges.{HasServiceFrom};
ghost use Rattle.decide_core.specs.inner.ServiceBoxes.{AddsBoxes, HasServiceOf};

use header_space::{AddressRange, PacketBox};
use host_net::Packet;
use std::alloc::{AllocError, Global};

/// The services with a protocol in one range and a destination port in another.
#[derive(Clone, Copy)]
pub(crate) struct ServiceBlock {
    pub(crate) low_proto: u8,
    pub(crate) high_proto: u8,
    pub(crate) low_port: u16,
    pub(crate) high_port: u16,
}

impl ServiceBlock {
    /// Whether the block has at least one service.
    fn has_services(&self) -> bool
        ensures { IsTrue result ↔ ((self.now.low_proto ≤ self.now.high_proto) × (self.now.low_port ≤ self.now.high_port)) }
    {
        self.low_proto <= self.high_proto && self.low_port <= self.high_port
    }

    /// Returns the box of the packets of the block from one range of addresses to another.
    fn packets(&self, from: AddressRange, to: AddressRange) -> PacketBox
        requires from { IsRange from }
        requires to { IsRange to }
        requires protos { self.now.low_proto ≤ self.now.high_proto }
        requires ports { self.now.low_port ≤ self.now.high_port }
        ensures is_box { IsBox result }
        ensures exact { (p : Packet) → IsIn result p ↔ HasServiceOf from to self.now p }
    {
        let within = PacketBox {
            least: Packet {
                src: from.first,
                dst: to.first,
                proto: self.low_proto,
                sport: 0,
                dport: self.low_port,
            },
            greatest: Packet {
                src: from.last,
                dst: to.last,
                proto: self.high_proto,
                sport: u16::MAX,
                dport: self.high_port,
            },
        };
        // This call establishes that packets of the box are packets.
        let _greatest = within.last();
        within
    }
}

/// Returns boxes of the packets from one range of addresses to another with services from `low` to `high`.
/// The number of a service is `65536 * protocol + port`. There are at most three boxes.
pub fn service_boxes(
    alloc: Global,
    from: AddressRange,
    to: AddressRange,
    low: u32,
    high: u32,
) -> Result<Vec<PacketBox>, AllocError>
    requires from { IsRange from }
    requires to { IsRange to }
    requires services { high < service_count }
    ensures boxes { IfOk result (λ boxes. All IsBox boxes.items) }
    ensures exact { IfOk result (λ boxes. (p : Packet) → IsInOne boxes.items p ↔ HasServiceFrom from to low high p) }
{
    let mut boxes = Vec::new(alloc);
    push_services(&mut boxes, from, to, low, high)?;
    Ok(boxes)
}

/// Appends the boxes of a range of services: for the first protocol, for the protocols between, and for the
/// last protocol.
pub(crate) fn push_services(
    boxes: &mut Vec<PacketBox>,
    from: AddressRange,
    to: AddressRange,
    low: u32,
    high: u32,
) -> Result<(), AllocError>
    requires from { IsRange from }
    requires to { IsRange to }
    requires services { high < service_count }
    ensures { IfOk result (λ _. AddsBoxes (HasServiceFrom from to low high) boxes.old.items boxes.new.items) }
{
    if high < low {
        return Ok(());
    }
    let low_proto = (low / 65536) as u8;
    let low_port = (low % 65536) as u16;
    let high_proto = (high / 65536) as u8;
    let high_port = (high % 65536) as u16;
    if low_proto == high_proto {
        let only = ServiceBlock {
            low_proto,
            high_proto,
            low_port,
            high_port,
        };
        push_block(boxes, from, to, only)?;
        return Ok(());
    }
    let first = ServiceBlock {
        low_proto,
        high_proto: low_proto,
        low_port,
        high_port: u16::MAX,
    };
    push_block(boxes, from, to, first)?;
    let between = ServiceBlock {
        low_proto: low_proto + 1,
        high_proto: high_proto - 1,
        low_port: 0,
        high_port: u16::MAX,
    };
    push_block(boxes, from, to, between)?;
    let last = ServiceBlock {
        low_proto: high_proto,
        high_proto,
        low_port: 0,
        high_port,
    };
    push_block(boxes, from, to, last)?;
    Ok(())
}

/// Appends the box of a block of services, if the block has at least one service.
fn push_block(
    boxes: &mut Vec<PacketBox>,
    from: AddressRange,
    to: AddressRange,
    block: ServiceBlock,
) -> Result<(), AllocError>
    requires from { IsRange from }
    requires to { IsRange to }
    ensures { IfOk result (λ _. AddsBoxes (HasServiceOf from to block) boxes.old.items boxes.new.items) }
{
    if !block.has_services() {
        return Ok(());
    }
    let within = block.packets(from, to);
    boxes.push(within)?;
    Ok(())
}
