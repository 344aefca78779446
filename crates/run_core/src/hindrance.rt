//! The lines with the reasons why a result cannot be emitted.

ghost use Rattle.std.specs.Prelude.{◌≡◌, ◌<◌, ◌++◌, IfOk, decimal, length};
ghost use Rattle.report_core.specs.Names.{flow_text};
ghost use Rattle.run_core.specs.Reply.{no_host_line, not_emittable};

use flow_set::Flow;
use host_net::Hosts;
use report_core::push_flow;
use std::alloc::{AllocError, Global};

/// Returns the line that reports a flow, with the words before and after its name.
pub fn flow_line(
    alloc: Global,
    hosts: &Hosts,
    before: &[u8],
    flow: Flow,
    after: &[u8],
) -> Result<Vec<u8>, AllocError>
    requires from { flow.from < length hosts.now }
    requires to { flow.to < length hosts.now }
    ensures { IfOk result (λ line. line.items ≡ not_emittable (before.now ++ (flow_text hosts.now flow ++ after.now))) }
{
    let mut line = Vec::new(alloc);
    line.extend_from_slice(b"topos: not emittable: ")?;
    line.extend_from_slice(before)?;
    push_flow(&mut line, hosts, flow)?;
    line.extend_from_slice(after)?;
    Ok(line)
}

/// Returns the line that reports a number, with the words after it.
pub fn count_line(alloc: Global, count: u32, after: &[u8]) -> Result<Vec<u8>, AllocError>
    ensures { IfOk result (λ line. line.items ≡ not_emittable (decimal count ++ after.now)) }
{
    let mut digits = itoa::Buffer::new();
    let mut line = Vec::new(alloc);
    line.extend_from_slice(b"topos: not emittable: ")?;
    line.extend_from_slice(digits.format(count).as_bytes())?;
    line.extend_from_slice(after)?;
    Ok(line)
}

/// Returns the line that reports that no host has that name.
pub fn no_host_line(alloc: Global, host: &str) -> Result<Vec<u8>, AllocError>
    ensures { IfOk result (λ line. line.items ≡ no_host_line host.now) }
{
    let mut line = Vec::new(alloc);
    line.extend_from_slice(b"topos: not emittable: no host ")?;
    line.extend_from_slice(host.as_bytes())?;
    line.extend_from_slice(b"\n")?;
    Ok(line)
}
