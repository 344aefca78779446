//! The run of a rule set over packets, from an empty connection table.

ghost use Rattle.std.specs.Prelude.{◌≡◌, ◌≤◌, ◌∷◌, Bool, List, [], Option, Some, IfOk, if◌then◌else◌, map};
ghost use Rattle.host_net.specs.Limits.{host_limit};
ghost use Rattle.ipt_rules.specs.Semantics.{PassesChains};
ghost use Rattle.pkt_core.specs.inner.ConnectionTable.{kept_in};
ghost use Rattle.pkt_core.specs.Tracking.{Runs};
ghost use Rattle.pkt_core.specs.declared.event.Event.{Event};
ghost use Rattle.pkt_core.specs.declared.event.Event.TheVariants.{Seen};
ghost use Rattle.sample_core.specs.inner.SampleCounts.{AreForwarded, AreRunCounts};
ghost use Rattle.emit_core.specs.Layout.{layout};

use crate::packets::sample_packets;
use emit_core::{NoChains, iptables_layout};
use host_net::Packet;
use ipt_rules::{IndexedRuleset, Ruleset};
use pkt_core::{FlowPolicy, Track};
use std::alloc::{AllocError, Global};

/// The rules of a policy, and their run over the packets of the sample.
#[derive(Clone, Copy)]
pub(crate) struct RunCounts {
    pub(crate) rules: u32,
    pub(crate) events: usize,
    pub(crate) forwarded: usize,
}

/// Returns the results of the rules of a policy for the packets of `count` hosts.
pub(crate) fn run_counts(
    alloc: Global,
    count: u16,
    policy: &FlowPolicy<'_>,
) -> Result<RunCounts, AllocError>
    requires few { count ≤ host_limit }
    requires whole { policy.now.site.services ≡ [] }
    ensures { IfOk result (λ run. AreRunCounts count (layout policy.now) run.rules run.events run.forwarded) }
{
    let rules = rules_of(alloc, policy)?;
    let packets = sample_packets(alloc, count)?;
    let indexed = IndexedRuleset::of(alloc, &rules, packets.len())?;
    let forwarded = forwarded(alloc, &indexed, &packets)?;
    Ok(RunCounts {
        rules: rules.lines(),
        events: packets.len(),
        forwarded,
    })
}

/// Returns the chains of a policy, which are never too many if all flows are unrestricted.
fn rules_of(alloc: Global, policy: &FlowPolicy<'_>) -> Result<Ruleset, AllocError>
    requires whole { policy.now.site.services ≡ [] }
    ensures { IfOk result (λ rules. rules ≡ layout policy.now) }
{
    let _count = policy.count();
    match iptables_layout(alloc, policy) {
        Ok(rules) => Ok(rules),
        Err(NoChains::TooManyRules { .. }) => unreachable!(),
        Err(NoChains::Memory) => Err(AllocError),
    }
}

/// Returns the number of packets that are forwarded.
fn forwarded(
    alloc: Global,
    indexed: &IndexedRuleset<'_>,
    packets: &[Packet],
) -> Result<usize, AllocError>
    ensures { IfOk result (AreForwarded (PassesChains indexed.now) (map Seen packets.now)) }
{
    let mut track = Track::new(alloc);
    let mut count = 0;
    for (place, packet) in packets.iter().enumerate() {
        let passes = is_forwarded(indexed, &mut track, packet)?;
        count += one_if(passes);
    }
    Ok(count)
}

/// Whether the rules forward a packet. The packet is tracked: a run over the remaining packets
/// continues this run.
fn is_forwarded(
    indexed: &IndexedRuleset<'_>,
    track: &mut Track,
    packet: &Packet,
) -> Result<bool, AllocError>
    ensures { IfOk result (λ passes. (events : List Event) (results : List (Option Bool))
        → Runs (PassesChains indexed.now) (kept_in track.new) events results
        → Runs (PassesChains indexed.now) (kept_in track.old) (Seen packet.now ∷ events) (Some passes ∷ results)) }
{
    let verdict = indexed.verdict(packet, track.state_of(packet));
    let passes = verdict.is_forward();
    track.step(packet, passes)?;
    Ok(passes)
}

fn one_if(counts: bool) -> usize
    ensures { result ≡ (if counts then 1 else 0) }
{
    if counts { 1 } else { 0 }
}
