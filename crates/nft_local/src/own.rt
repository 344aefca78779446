//! The rules that continue in a chain with the packets of one host.

ghost use Rattle.std.specs.Prelude.{◌≡◌, ◌<◌, length, IfOk};
ghost use Rattle.nft_local.specs.inner.Entries.{LeadsOwn, OnlyAt, verdict_for};

use host_net::Hosts;
use nft_emit::{cuts_of, fall_rules};
use nft_rules::{End, Rule, Verdict};
use std::alloc::{AllocError, Global};

/// Returns the rules that continue in a chain with the packets that have an address of the host at
/// this end. They have no verdict on other packets.
pub(crate) fn own_rules(
    alloc: Global,
    hosts: &Hosts,
    host: u16,
    end: End,
    chain: u32,
) -> Result<Vec<Rule>, AllocError>
    requires { host < length hosts.now }
    ensures { IfOk result (λ rules. LeadsOwn hosts.now end host chain rules.items) }
{
    let cuts = cuts_of(alloc, hosts)?;
    let verdicts = only_verdict(alloc, hosts.count(), host, Verdict::Goto(chain))?;
    fall_rules(alloc, end, &cuts, &verdicts, hosts.rest())
}

/// Returns a verdict for each of `count` hosts: this one for the host, and none for the others.
fn only_verdict(
    alloc: Global,
    count: u16,
    host: u16,
    verdict: Verdict,
) -> Result<Vec<Option<Verdict>>, AllocError>
    ensures whole { IfOk result (λ verdicts. length verdicts.items ≡ count) }
    ensures only { IfOk result (λ verdicts. OnlyAt host verdict verdicts.items) }
{
    let mut verdicts = Vec::new(alloc);
    for other in 0..count {
        verdicts.push(verdict_for(other, host, verdict))?;
    }
    Ok(verdicts)
}

fn verdict_for(other: u16, host: u16, verdict: Verdict) -> Option<Verdict>
    ensures { result ≡ verdict_for host verdict other }
{
    if other == host { Some(verdict) } else { None }
}
