//! The ranges of addresses that hosts own by their prefixes.

ghost use Rattle.std.specs.Prelude.{◌≡◌, ◌++◌, IfOk, OnOk};
ghost use Rattle.nft_emit.specs.inner.Cuts.{AreCuts, cut_if, is_same_host};

use header_space::AddressRange;
use host_net::Hosts;
use std::alloc::{AllocError, Global};

/// A range of addresses, and the host that owns them.
#[derive(Clone, Copy, Debug, PartialEq, Eq)]
pub struct Cut {
    pub range: AddressRange,
    pub host: u16,
}

/// Returns the ranges of all hosts other than the rest host, in ascending order.
pub fn cuts_of(alloc: Global, hosts: &Hosts) -> Result<Vec<Cut>, AllocError>
    ensures { IfOk result (λ cuts. AreCuts hosts.now cuts.items) }
{
    let rest = hosts.rest();
    let mut cuts = Vec::new(alloc);
    let mut first = 0;
    loop {
        let held = hosts.owner_until(first, u32::MAX);
        let range = AddressRange {
            first,
            last: held.last,
        };
        push_owned(&mut cuts, rest, held.host, range)?;
        if held.last == u32::MAX {
            return Ok(cuts);
        }
        first = held.last + 1;
    }
}

/// Adds the range if its owner is a host other than the rest host.
fn push_owned(
    cuts: &mut Vec<Cut>,
    rest: Option<u16>,
    owner: Option<u16>,
    range: AddressRange,
) -> Result<(), AllocError>
    ensures { OnOk result (cuts.new.items ≡ cuts.old.items ++ cut_if rest owner range) }
{
    if let Some(host) = owner {
        if !is_same_host(rest, host) {
            cuts.push(Cut { range, host })?;
        }
    }
    Ok(())
}

fn is_same_host(rest: Option<u16>, host: u16) -> bool
    ensures { result ≡ is_same_host rest host }
{
    match rest {
        Some(rest) => rest == host,
        None => false,
    }
}
