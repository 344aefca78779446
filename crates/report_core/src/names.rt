//! The names of hosts, flows and invariants, appended to a text.
ghost use Rattle.std.specs.Prelude.{◌≡◌, ◌<◌, ◌++◌, length, OnOk};
ghost use Rattle.report_core.specs.Names.{flow_text, host_name, invariant_text};

use flow_set::Flow;
use host_net::Hosts;
use inv_any::AnyInv;
use std::alloc::AllocError;

/// Appends a flow to a text, by the names of its hosts.
pub fn push_flow(text: &mut Vec<u8>, hosts: &Hosts, flow: Flow) -> Result<(), AllocError>
    requires from { flow.from < length hosts.now }
    requires to { flow.to < length hosts.now }
    ensures { OnOk result (text.new.items ≡ text.old.items ++ flow_text hosts.now flow) }
{
    push_host(text, hosts, flow.from)?;
    text.extend_from_slice(b" -> ")?;
    push_host(text, hosts, flow.to)
}

fn push_host(text: &mut Vec<u8>, hosts: &Hosts, host: u16) -> Result<(), AllocError>
    requires { host < length hosts.now }
    ensures { OnOk result (text.new.items ≡ text.old.items ++ host_name hosts.now host) }
{
    let name = hosts.name(host);
    text.extend_from_slice(name.bytes())
}

pub(crate) fn push_invariant(
    text: &mut Vec<u8>,
    number: usize,
    invariant: &AnyInv,
) -> Result<(), AllocError>
    ensures { OnOk result (text.new.items ≡ text.old.items ++ invariant_text number invariant.now) }
{
    let mut digits = itoa::Buffer::new();
    text.extend_from_slice(digits.format(number).as_bytes())?;
    text.extend_from_slice(b" ")?;
    text.extend_from_slice(invariant.template_name().as_bytes())
}
