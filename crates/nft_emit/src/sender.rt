//! The chain of a sender.

ghost use Rattle.std.specs.Prelude.{◌≡◌, ◌<◌, ◌≤◌, ◌+◌, ◌*◌, length, IfOk, OnOk};
ghost use Rattle.nft_emit.specs.inner.Building.{AreBuilt, Extends};
ghost use Rattle.nft_emit.specs.inner.Cuts.{AreCuts};
ghost use Rattle.nft_emit.specs.inner.Sending.{RowFits, Sends};

use crate::classes::Chains;
use crate::cuts::Cut;
use crate::link::link_verdict;
use crate::maps::fall_rules;
use crate::names::sender_name;
use nft_rules::{Chain, End, Verdict};
use pkt_core::FlowPolicy;
use std::alloc::{AllocError, Global};

/// Adds the chain of a sender, after the chains that it needs, and returns its index.
pub(crate) fn push_sender(
    alloc: Global,
    chains: &mut Chains,
    policy: &FlowPolicy<'_>,
    cuts: &[Cut],
    from: u16,
) -> Result<u32, AllocError>
    requires from { from < length policy.now.site.hosts }
    requires few { length chains.old.list.items ≤ from * 257 }
    requires built { AreBuilt policy.now.site.hosts from chains.old.list.items }
    requires cuts { AreCuts policy.now.site.hosts cuts.now }
    ensures kept { OnOk result (Extends chains.old.list.items chains.new.list.items) }
    ensures few { OnOk result (length chains.new.list.items ≤ (from + 1) * 257) }
    ensures built { OnOk result (AreBuilt policy.now.site.hosts (from + 1) chains.new.list.items) }
    ensures sends { IfOk result (λ c. Sends chains.new.list.items policy.now cuts.now from c) }
{
    let verdicts = row_of(alloc, chains, policy, from)?;
    let rules = fall_rules(alloc, End::Destination, cuts, &verdicts, policy.rest())?;
    let name = sender_name(alloc, policy.hosts(), from)?;
    let number = chains.list.len() as u32;
    chains.list.push(Chain { name, rules })?;
    Ok(number)
}

/// Returns the verdict on each receiver.
fn row_of(
    alloc: Global,
    chains: &mut Chains,
    policy: &FlowPolicy<'_>,
    from: u16,
) -> Result<Vec<Option<Verdict>>, AllocError>
    requires from { from < length policy.now.site.hosts }
    requires few { length chains.old.list.items ≤ from * 257 }
    requires built { AreBuilt policy.now.site.hosts from chains.old.list.items }
    ensures kept { OnOk result (Extends chains.old.list.items chains.new.list.items) }
    ensures few { OnOk result (length chains.new.list.items ≤ from * 257 + 256) }
    ensures built { OnOk result (AreBuilt policy.now.site.hosts from chains.new.list.items) }
    ensures whole { IfOk result (λ row. length row.items ≡ length policy.now.site.hosts) }
    ensures fits { IfOk result (λ row. RowFits chains.new.list.items policy.now from row.items) }
{
    let mut row = Vec::new(alloc);
    for to in 0..policy.count() {
        let verdict = link_verdict(alloc, chains, policy, from, to)?;
        row.push(verdict)?;
    }
    Ok(row)
}
