//! The names of chains.

ghost use Rattle.std.specs.Prelude.{◌≡◌, ◌<◌, IfOk, length};
ghost use Rattle.nft_emit.specs.inner.Building.{sender_name, services_name};

use host_net::Hosts;
use std::alloc::{AllocError, Global};

/// Returns the name of the chain of a sender: `from_` and the name of the host.
pub(crate) fn sender_name(alloc: Global, hosts: &Hosts, host: u16) -> Result<Vec<u8>, AllocError>
    requires { host < length hosts.now }
    ensures { IfOk result (λ name. name.items ≡ sender_name hosts.now host) }
{
    let mut name = Vec::from_slice(alloc, b"from_")?;
    name.extend_from_slice(hosts.name(host).bytes())?;
    Ok(name)
}

/// Returns the name of a chain for services: `services_` and its index.
pub(crate) fn services_name(alloc: Global, index: u32) -> Result<Vec<u8>, AllocError>
    ensures { IfOk result (λ name. name.items ≡ services_name index) }
{
    let text = format!(in alloc; "services_{index}")?;
    Ok(Vec::from_slice(alloc, text.as_bytes())?)
}
