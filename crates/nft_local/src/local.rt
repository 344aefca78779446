//! The table for the machines of one host, and its text.

ghost use Rattle.std.specs.Prelude.{◌≡◌, ◌<◌, [], length, IfOk, IsTrue, List};
ghost use Rattle.host_emit.specs.LocalLayout.{is_specific};
ghost use Rattle.nft_rules.specs.declared.table.Chain.{Chain as TableChain};
ghost use Rattle.nft_local.specs.HostTable.{IsMachineTable};
ghost use Rattle.nft_local.specs.MachineText.{machine_text};

use crate::machine::machine_chains;
use crate::part::flows_at;
use crate::text::machine_text_of;
use nft_emit::nft_layout;
use nft_read::table_ranges;
use nft_rules::Table;
use nft_space::LoadableTable;
use pkt_core::FlowPolicy;
use std::alloc::{AllocError, Global};

/// Returns the table for the machines of one specific host, for a policy: permitted flows pass, and
/// the answers of stateful flows pass on established connections. Its base chain `forward` has no
/// rules, and the base chains `input` and `output` continue in two of its chains.
pub fn local_table(
    alloc: Global,
    policy: &FlowPolicy<'_>,
    host: u16,
) -> Result<LoadableTable, AllocError>
    requires there { host < length policy.now.site.hosts }
    requires specific { IsTrue (is_specific policy.now.site.hosts host) }
    ensures empty { IfOk result (λ table. table.forward.items ≡ []) }
    ensures machine { IfOk result (λ table. IsMachineTable policy.now host table.chains.items) }
{
    let permitted = flows_at(alloc, policy.permitted(), host)?;
    let stateful = flows_at(alloc, policy.stateful(), host)?;
    let part = FlowPolicy::new(policy.hosts(), policy.services(), &permitted, &stateful);
    let table = nft_layout(alloc, &part)?;
    let chains = machine_chains(alloc, policy.hosts(), host, table.forward, table.chains)?;
    let forward = Vec::new(alloc);
    let machine = LoadableTable::of(Table { forward, chains });
    table_ranges(&machine);
    Ok(machine)
}

/// Returns the text of the table for the machines of one specific host, as
/// `nft list table ip topos` prints it.
pub fn local_table_text(
    alloc: Global,
    policy: &FlowPolicy<'_>,
    host: u16,
) -> Result<Vec<u8>, AllocError>
    requires there { host < length policy.now.site.hosts }
    requires specific { IsTrue (is_specific policy.now.site.hosts host) }
    ensures { IfOk result (λ text. (chains : List TableChain) × IsMachineTable policy.now host chains × (text.items ≡ machine_text chains)) }
{
    let machine = local_table(alloc, policy, host)?;
    machine_text_of(alloc, machine.table())
}
