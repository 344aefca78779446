//! The order of packets.

ghost use Rattle.std.specs.Prelude.{◌≡◌, ◌↔◌, IsTrue, IsFalse, if◌then◌else◌, Some};
ghost use Rattle.header_space.specs.Order.{ComesBefore};
ghost use Rattle.header_space.specs.Searching.{IsEarlier};

use host_net::Packet;

/// Whether a packet comes before another.
fn comes_before(p: &Packet, q: &Packet) -> bool
    ensures { IsTrue result ↔ ComesBefore p.now q.now }
{
    if p.src != q.src {
        return p.src < q.src;
    }
    if p.dst != q.dst {
        return p.dst < q.dst;
    }
    if p.proto != q.proto {
        return p.proto < q.proto;
    }
    if p.sport != q.sport {
        return p.sport < q.sport;
    }
    p.dport < q.dport
}

/// Whether a packet comes before the packet found, or no packet is found.
pub(crate) fn is_earlier(p: &Packet, found: Option<Packet>) -> bool
    ensures { IsTrue result ↔ IsEarlier p.now found }
{
    match found {
        None => true,
        Some(q) => comes_before(p, &q),
    }
}

/// Returns the packet found after a test of an earlier packet `p`: `p` if the property holds for it.
pub(crate) fn found_then(holds: bool, p: Packet, found: Option<Packet>) -> Option<Packet>
    ensures { result ≡ (if holds then Some p else found) }
{
    if holds { Some(p) } else { found }
}
