//! The chains of a machine, assembled.

ghost use Rattle.std.specs.Prelude.{◌<◌, ◌≤◌, length, IfOk};
ghost use Rattle.nft_local.specs.inner.Assembly.{IsAssembled};

use crate::entries::{push_chain, push_side};
use emit_core::Direction;
use host_net::Hosts;
use nft_rules::{Chain, Rule};
use std::alloc::{AllocError, Global};

/// Returns the chains of a machine: the chains of a table, a chain with the rules of its base chain,
/// and the chains of both directions.
pub(crate) fn machine_chains(
    alloc: Global,
    hosts: &Hosts,
    host: u16,
    forward: Vec<Rule>,
    mut chains: Vec<Chain>,
) -> Result<Vec<Chain>, AllocError>
    requires there { host < length hosts.now }
    requires room { length chains.items ≤ 99990 }
    ensures { IfOk result (λ made. IsAssembled hosts.now host chains.items forward.items made.items) }
{
    let flows = chains.len() as u32;
    push_chain(alloc, &mut chains, b"flows_all", forward)?;
    push_side(alloc, &mut chains, hosts, host, Direction::Outbound, flows)?;
    push_side(alloc, &mut chains, hosts, host, Direction::Inbound, flows)?;
    Ok(chains)
}
