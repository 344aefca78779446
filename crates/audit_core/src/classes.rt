//! The number of classes of packets.

ghost use Rattle.std.specs.Prelude.{◌≡◌, ◌≤◌, ◌+◌, ◌*◌, ◌^◌, cond, length, nat_lt};
ghost use Rattle.audit_core.specs.Places.{class_total, representatives_of};
ghost use Rattle.audit_core.specs.inner.Named.{cuts_found};

use crate::cuts::{sort_addresses, sort_ports, sort_protocols};
use crate::named::Found;

impl Found {
    /// Returns the number of classes of packets. Protocols that are not named are one class.
    pub(crate) fn classes(mut self) -> u128
        ensures { result ≡ class_total (representatives_of (cuts_found self)) }
    {
        sort_addresses(&mut self.addresses);
        sort_protocols(&mut self.protocols);
        sort_ports(&mut self.ports);
        let protocols = protocol_classes(&self.protocols);
        total(&self.addresses, protocols, &self.ports)
    }
}

/// Returns the number of classes of protocols, of which these are named.
fn protocol_classes(named: &[u8]) -> usize
    requires { length named.now ≤ 2 ^ 8 }
    ensures few { result ≤ 2 ^ 8 }
    ensures count { result ≡ length named.now + cond (nat_lt (length named.now) (2 ^ 8)) 1 0 }
{
    let count = named.len();
    if count < 256 { count + 1 } else { count }
}

fn total(addresses: &[u32], protocols: usize, ports: &[u16]) -> u128
    requires addresses { length addresses.now ≤ 2 ^ 32 }
    requires protocols { protocols ≤ 2 ^ 8 }
    requires ports { length ports.now ≤ 2 ^ 16 }
    ensures { result ≡ length ports.now * (length ports.now * (protocols * (length addresses.now * length addresses.now))) }
{
    let pairs = addresses.len() as u128 * addresses.len() as u128;
    let ends = ports.len() as u128;
    ends * (ends * (protocols as u128 * pairs))
}
