//! Areas: pairs of a range of sources and a range of destinations.

ghost use Rattle.std.specs.Prelude.{◌≡◌, ◌++◌, IfOk, OnOk, map};
ghost use Rattle.host_net.specs.declared.packet.Packet.{Packet};
ghost use Rattle.host_net.specs.Packet.{IsPacket};
ghost use Rattle.header_space.specs.Boxes.{IsBox, IsIn};
ghost use Rattle.pass_core.specs.inner.Areas.{IsArea, area_between, areas_between, box_of};

use crate::service::Service;
use header_space::{AddressRange, PacketBox};
use host_net::Packet;
use std::alloc::{AllocError, Global};

/// A range of sources and a range of destinations.
#[derive(Clone, Copy)]
pub(crate) struct Area {
    pub(crate) from: AddressRange,
    pub(crate) to: AddressRange,
}

impl Area {
    /// Returns the box of the packets of a service in the area.
    pub(crate) fn packets_of(&self, service: Service) -> PacketBox
        requires { IsArea self.now }
        ensures value { result ≡ box_of self.now service }
        ensures is_box { IsBox result }
        ensures packets { (p : Packet) → IsIn result p → IsPacket p }
    {
        let within = PacketBox {
            least: Packet {
                src: self.from.first,
                dst: self.to.first,
                proto: service.proto,
                sport: 0,
                dport: service.port,
            },
            greatest: Packet {
                src: self.from.last,
                dst: self.to.last,
                proto: service.proto,
                sport: u16::MAX,
                dport: service.port,
            },
        };
        // This call establishes that packets of a box are packets.
        let _last = within.last();
        within
    }
}

/// Returns the areas between two sets of addresses.
pub(crate) fn areas_between(
    alloc: Global,
    from: &[AddressRange],
    to: &[AddressRange],
) -> Result<Vec<Area>, AllocError>
    ensures { IfOk result (λ areas. areas.items ≡ areas_between from.now to.now) }
{
    let mut areas = Vec::new(alloc);
    for source in from {
        push_areas(&mut areas, *source, to)?;
    }
    Ok(areas)
}

/// Appends the areas from one range of sources.
fn push_areas(
    areas: &mut Vec<Area>,
    source: AddressRange,
    to: &[AddressRange],
) -> Result<(), AllocError>
    ensures { OnOk result (areas.new.items ≡ areas.old.items ++ map (area_between source) to.now) }
{
    for target in to {
        areas.push(Area {
            from: source,
            to: *target,
        })?;
    }
    Ok(())
}
