//! The packets of the sample: one for each pair of hosts.

ghost use Rattle.std.specs.Prelude.{◌≡◌, ◌<◌, ◌≤◌, IfOk, map};
ghost use Rattle.flow_set.specs.EveryFlow.{every_flow};
ghost use Rattle.host_net.specs.Limits.{host_limit};
ghost use Rattle.sample_core.specs.Sample.{packet_between, sample_address};

use flow_set::{Flow, FlowSet};
use host_net::Packet;
use std::alloc::{AllocError, Global};

const FIRST_ADDRESS: u32 = 10 << 24;

/// Returns the packets, in the order of their flows.
pub(crate) fn sample_packets(alloc: Global, count: u16) -> Result<Vec<Packet>, AllocError>
    requires { count ≤ host_limit }
    ensures { IfOk result (λ packets. packets.items ≡ map packet_between (every_flow count)) }
{
    let all = FlowSet::full(alloc, count)?;
    let mut packets = Vec::new(alloc);
    for flow in all.iter() {
        packets.push(packet_between(flow))?;
    }
    Ok(packets)
}

fn packet_between(flow: Flow) -> Packet
    ensures { result ≡ packet_between flow }
{
    Packet {
        src: address(flow.from),
        dst: address(flow.to),
        proto: 17,
        sport: 1000,
        dport: 1000,
    }
}

fn address(host: u16) -> u32
    ensures { result ≡ sample_address host }
{
    FIRST_ADDRESS + u32::from(host)
}
