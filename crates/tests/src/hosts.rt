//! Hosts that are added one by one, which the program does only if they have no cause to be
//! refused; and a prefix that is parsed.

ghost use Rattle.std.specs.Prelude.{IsTrue};
ghost use Rattle.host_net.specs.inner.Hosts.{is_network};

use host_net::{HostRefusal, Hosts, Prefix, read_prefix};
use std::process::Abort;

#[test]
fn prefixes_are_read(rt: HostRuntime) {
    assert!(rt; read_prefix(b"10.0.0.01").is_none());
    assert!(rt; read_prefix(b"10.0.0.1") == Prefix::new(0x0a000001, 32));
}

#[test]
fn a_host_is_added_once(rt: HostRuntime) {
    let one = network(&rt, 0x0a000001, 32);
    let mut hosts = Hosts::new(rt.alloc());
    assert!(rt; hosts.add(b"a", &[one], false) == Ok(0));
    assert!(rt; hosts.add(b"a", &[one], false) == Err(HostRefusal::Duplicate { other: 0 }));
}

fn network(rt: &impl Abort, addr: u32, len: u8) -> Prefix
    ensures { IsTrue (is_network result) }
{
    let Some(prefix) = Prefix::new(addr, len) else {
        panic!(rt; "no prefix")
    };
    assert!(rt; prefix.exact() && prefix.len() >= 1);
    prefix
}
