//! Parsing the values of protocol and port options.

ghost use Rattle.std.specs.Prelude.{◌≡◌, Some, None, if◌then◌else◌, nat_le};
ghost use Rattle.text_core.specs.inner.Decimal.{number};
ghost use Rattle.ipt_read.specs.ServiceValues.{other_protocol};
ghost use Rattle.ipt_read.specs.inner.ServiceSteps.{asked_ports, asked_protocol, if_positive, named_protocol, port_or, ports_between};

use host_net::{LAST_PORT, read_port, read_protocol};
use text_core::{read_number, split_once};

/// Parses a protocol, by a name or by its number from 1 to 255.
#[tactic(auto, unfolding(crate::specs::inner::ServiceSteps::asked_protocol))]
pub(crate) fn asked_protocol(word: &[u8]) -> Option<u8>
    ensures { result ≡ asked_protocol word.now }
{
    named_protocol(word).or(numbered_protocol(word))
}

fn named_protocol(word: &[u8]) -> Option<u8>
    ensures { result ≡ named_protocol word.now }
{
    other_protocol(word).or(read_protocol(word))
}

/// Returns the protocol of a name that iptables knows in addition to the three of `read_protocol`.
fn other_protocol(word: &[u8]) -> Option<u8>
    ensures { result ≡ other_protocol word.now }
{
    if word == b"esp".as_slice() {
        return Some(50);
    }
    if word == b"ah".as_slice() {
        return Some(51);
    }
    if word == b"sctp".as_slice() {
        return Some(132);
    }
    None
}

fn numbered_protocol(word: &[u8]) -> Option<u8>
    ensures { result ≡ if_positive (number 255 word.now) }
{
    match read_number(255, word)? {
        0 => None,
        proto => Some(proto as u8),
    }
}

/// Returns the first port and the last, which are equal if there is no colon.
#[tactic(auto, unfolding(crate::specs::inner::ServiceSteps::asked_ports))]
pub(crate) fn asked_ports(word: &[u8]) -> Option<(u16, u16)>
    ensures { result ≡ asked_ports word.now }
{
    match split_once(word, b':') {
        None => {
            let port = read_port(word)?;
            Some((port, port))
        }
        Some((first, last)) => {
            if first.is_empty() && last.is_empty() {
                return None;
            }
            ports_between(first, last)
        }
    }
}

fn ports_between(first: &[u8], last: &[u8]) -> Option<(u16, u16)>
    ensures { result ≡ ports_between first.now last.now }
{
    let low = port_or(0, first)?;
    let high = port_or(LAST_PORT, last)?;
    if low <= high { Some((low, high)) } else { None }
}

fn port_or(other: u16, word: &[u8]) -> Option<u16>
    ensures { result ≡ port_or other word.now }
{
    if word.is_empty() {
        return Some(other);
    }
    read_port(word)
}
