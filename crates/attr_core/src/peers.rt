//! Other hosts, which a table lists by their names.
ghost use Rattle.std.specs.Prelude.{◌≡◌, ◌≢◌, ◌<◌, IfSome, length};
ghost use Rattle.attr_core.specs.Peers.{peer};
ghost use Rattle.toml.specs.View.{view};

use host_net::Hosts;
use toml::Value;

/// Returns the declared host that an element names, if it is not `host`.
#[tactic(auto, unfolding(crate::specs::Peers::peer))]
pub(crate) fn peer(hosts: &Hosts, host: u16, value: &Value) -> Option<u16>
    ensures value { result ≡ peer hosts.now host (view value.now) }
    ensures other { IfSome result (λ other. (other < length hosts.now) × (host ≢ other)) }
{
    let other = hosts.find(value.as_str()?.as_bytes())?;
    if other == host { None } else { Some(other) }
}
