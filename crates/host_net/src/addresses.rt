//! The addresses that a host owns, and searches over all hosts.

ghost use Rattle.std.specs.Prelude.{◌≡◌, ◌<◌, ◌^◌, length, position, sum_by};
ghost use Rattle.host_net.specs.inner.Hosts.{meets_any};

use crate::prefix::Prefix;

/// The prefixes of a host, and whether it is the rest host.
#[derive(Debug, Drop)]
pub struct Addresses {
    pub prefixes: Vec<Prefix>,
    pub rest: bool,
}

/// Returns the index of the rest host.
pub fn rest_host(hosts: &[Addresses]) -> Option<usize>
    ensures { result ≡ position (λ h. h.rest) hosts.now }
{
    hosts.iter().position(|host| host.rest)
}

/// Whether one of the prefixes shares an address with `prefix`.
pub fn meets_any(prefixes: &[Prefix], prefix: &Prefix) -> bool
    ensures { result ≡ meets_any prefixes.now prefix.now }
{
    prefixes.iter().any(|other| prefix.meets(other))
}

/// Returns the number of prefixes of all hosts.
pub fn prefix_count(hosts: &[Addresses]) -> usize
    requires { sum_by (λ h. length h.prefixes.items) hosts.now < 2 ^ 16 }
    ensures { result ≡ sum_by (λ h. length h.prefixes.items) hosts.now }
{
    hosts.iter().map(|host| host.prefixes.len()).sum()
}
