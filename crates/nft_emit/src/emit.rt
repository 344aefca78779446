//! The table of a policy, assembled.

ghost use Rattle.std.specs.Prelude.{◌≡◌, ◌≤◌, [], length, IfOk, OnOk};
ghost use Rattle.pkt_core.specs.Filter.{Enforces, ForwardsAsExpected};
ghost use Rattle.nft_rules.specs.Loadable.{IsLoadable};
ghost use Rattle.nft_rules.specs.Semantics.{PassesTable};
ghost use Rattle.nft_emit.specs.LayoutNames.{HaveLayoutNames, layout_limit};
ghost use Rattle.nft_emit.specs.inner.Building.{AreBuilt};
ghost use Rattle.nft_emit.specs.inner.Cuts.{AreCuts};
ghost use Rattle.nft_emit.specs.inner.Sending.{AreHeads};

use crate::classes::Chains;
use crate::cuts::{Cut, cuts_of};
use crate::maps::fall_rules;
use crate::sender::push_sender;
use nft_rules::{End, Table, Verdict};
use pkt_core::FlowPolicy;
use std::alloc::{AllocError, Global};

/// Returns the table of a policy: permitted flows pass, and the answers of stateful flows pass on
/// established connections. A table has at most 257 chains for each host, so no policy has too many
/// chains.
pub fn nft_layout(alloc: Global, policy: &FlowPolicy<'_>) -> Result<Table, AllocError>
    ensures loadable { IfOk result (λ table. IsLoadable table) }
    ensures few { IfOk result (λ table. length table.chains.items ≤ layout_limit) }
    ensures named { IfOk result (λ table. HaveLayoutNames table.chains.items) }

    // Each packet has a verdict, and it is forwarded if and only if the policy allows it.
    ensures enforces { IfOk result (λ table. Enforces (PassesTable table) policy.now) }

    // For every list of events, a packet is forwarded if and only if the policy and its answers
    // expect it.
    ensures expected { IfOk result (λ table. ForwardsAsExpected (PassesTable table) policy.now) }
{
    let cuts = cuts_of(alloc, policy.hosts())?;
    let mut chains = Chains::new(alloc);
    let heads = push_senders(alloc, &mut chains, policy, &cuts)?;
    let forward = fall_rules(alloc, End::Source, &cuts, &heads, policy.rest())?;
    Ok(Table {
        forward,
        chains: chains.list,
    })
}

/// Adds the chain of each host, and returns the verdict on the packets of each.
fn push_senders(
    alloc: Global,
    chains: &mut Chains,
    policy: &FlowPolicy<'_>,
    cuts: &[Cut],
) -> Result<Vec<Option<Verdict>>, AllocError>
    requires none { chains.old.list.items ≡ [] }
    requires cuts { AreCuts policy.now.site.hosts cuts.now }
    ensures few { OnOk result (length chains.new.list.items ≤ 65792) }
    ensures built { OnOk result (AreBuilt policy.now.site.hosts (length policy.now.site.hosts) chains.new.list.items) }
    ensures whole { IfOk result (λ heads. length heads.items ≡ length policy.now.site.hosts) }
    ensures fits { IfOk result (λ heads. AreHeads chains.new.list.items policy.now cuts.now heads.items) }
{
    let mut heads = Vec::new(alloc);
    for from in 0..policy.count() {
        let number = push_sender(alloc, chains, policy, cuts, from)?;
        heads.push(Some(Verdict::Goto(number)))?;
    }
    Ok(heads)
}
