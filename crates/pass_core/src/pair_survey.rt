//! Surveys of a pair of sets of addresses, by the set of its packets that pass and the set of the others.

ghost use Rattle.std.specs.Prelude.{◌≡◌, ◌≤◌, ◌<◌, List, length, IfSome, IfNone, true};
ghost use Rattle.host_net.specs.declared.packet.Packet.{Packet};
ghost use Rattle.host_net.specs.declared.packet.CtState.TheVariants.{New};
ghost use Rattle.host_net.specs.Packet.{IsPacket};
ghost use Rattle.header_space.specs.declared.address_range.AddressRange.{AddressRange};
ghost use Rattle.header_space.specs.Boxes.{IsBox, IsIn};
ghost use Rattle.ipt_rules.specs.Chain.{Chain};
ghost use Rattle.ipt_rules.specs.Semantics.{PassesChains};
ghost use Rattle.rules_set.specs.Pairs.{ArePairSets};
ghost use Rattle.rules_space.specs.Verdicts.{GivesOne};
ghost use Rattle.pass_core.specs.Services.{service_of};
ghost use Rattle.pass_core.specs.inner.Areas.{areas_between};
ghost use Rattle.pass_core.specs.inner.Numbers.{number};
ghost use Rattle.pass_core.specs.inner.PairSurveys.{HasNone};
ghost use Rattle.pass_core.specs.inner.Surveying.{IsSurvey};

use crate::service::Service;
use crate::survey::{Survey, last_alike};
use header_space::PacketBox;
use host_net::Packet;
use packet_set::Diagrams;
use rules_set::PairSets;

/// Surveys the packets of a pair from the service `first` on, or returns `None` if the service has no packets.
pub(crate) fn survey_pair(diagrams: &Diagrams, sets: PairSets, first: Service) -> Option<Survey>
    requires passing { sets.passing < length diagrams.now }
    requires staying { sets.staying < length diagrams.now }
    ensures last { IfSome result (λ survey. number first ≤ number survey.last) }
    ensures survey { IfSome result (λ survey. (chains : List Chain) (from to : List AddressRange) → ArePairSets chains New from to diagrams.now sets
        → GivesOne (PassesChains chains) → IsSurvey (λ p. PassesChains chains New p true) (areas_between from to) (number first) survey) }
    ensures none { IfNone result (HasNone diagrams.now sets (number first)) }
{
    let whole = packets_from(first);
    let passing = diagrams.some_packet(sets.passing, &whole);
    let part = up_to(&whole, passing.proto, passing.dport);
    let staying = diagrams.some_packet(sets.staying, &part);
    if passing.packet.is_none() && staying.packet.is_none() {
        return None;
    }
    Some(Survey {
        first,
        last: last_alike(&up_to(&part, staying.proto, staying.dport)),
        passes: passing.packet,
        stays: staying.packet,
    })
}

/// Returns the packets from a service on that a box can have: of its protocol, or of all services if its port is 0.
fn packets_from(first: Service) -> PacketBox
    ensures is_box { IsBox result }
    ensures proto { result.least.proto ≡ first.proto }
    ensures port { result.least.dport ≡ first.port }
    ensures every { (p : Packet) → IsPacket p → result.least.proto ≤ p.proto → p.proto ≤ result.greatest.proto → result.least.dport ≤ p.dport
        → p.dport ≤ result.greatest.dport → IsIn result p }
    ensures packets { (p : Packet) → IsIn result p → IsPacket p }
{
    let end = first.end();
    let within = PacketBox {
        least: Packet {
            src: 0,
            dst: 0,
            proto: first.proto,
            sport: 0,
            dport: first.port,
        },
        greatest: Packet {
            src: u32::MAX,
            dst: u32::MAX,
            proto: first.proto.max(end.proto),
            sport: u16::MAX,
            dport: first.port.max(end.port),
        },
    };
    // This call establishes that packets of a box are packets.
    let _last = within.last();
    within
}

/// Returns the packets of a box with a protocol and a destination port up to these.
fn up_to(within: &PacketBox, proto: u8, dport: u16) -> PacketBox
    requires is_box { IsBox within.now }
    requires proto { within.now.least.proto ≤ proto }
    requires dport { within.now.least.dport ≤ dport }
    ensures is_box { IsBox result }
    ensures least { result.least ≡ within.now.least }
    ensures greatest { result.greatest ≡ record within.now.greatest { proto = proto; dport = dport } }
{
    PacketBox {
        least: within.least,
        greatest: Packet {
            proto,
            dport,
            ..within.greatest
        },
    }
}
