//! The printed form of the sample.

ghost use Rattle.std.specs.Prelude.{◌≡◌, ◌≤◌, ◌++◌, IfOk, [], Ok, OnOk, codes, decimal, length};
ghost use Rattle.desc_core.specs.Description.{described_by_table};
ghost use Rattle.net_core.specs.Policies.{IsPolicyOf};
ghost use Rattle.sample_core.specs.SampleTable.{sample_table};
ghost use Rattle.host_net.specs.Limits.{host_limit};
ghost use Rattle.sample_core.specs.inner.SampleCounts.{AreCounts, counts_text};
ghost use Rattle.sample_core.specs.Sample.{IsSample, count_line, offending_lines, table_line};

use crate::counts::{TableLines, offending, table_lines};
use crate::description::sample_description;
use crate::run::{RunCounts, run_counts};
use desc_core::Description;
use net_core::{Policy, policy_of};
use pkt_core::FlowPolicy;
use std::alloc::{AllocError, Global};

/// The results of the commands for the sample.
#[derive(Drop)]
struct Counts {
    hosts: u16,
    asked: u32,
    offending: Vec<u32>,
    permitted: u32,
    stateful: u32,
    table: TableLines,
    run: RunCounts,
}

/// Returns the numbers of the sample of `count` hosts, one per line.
pub fn sample_text(alloc: Global, count: u16) -> Result<Vec<u8>, AllocError>
    requires { count ≤ host_limit }
    ensures { IfOk result (λ text. IsSample count text.items) }
{
    let description = sample_description(alloc, count)?;
    let counts = counts_of(alloc, count, &description)?;
    counts_text(alloc, count, &counts)
}

fn counts_of(alloc: Global, count: u16, description: &Description) -> Result<Counts, AllocError>
    requires few { count ≤ host_limit }
    requires described { described_by_table (sample_table count) ≡ Ok description.now }
    requires whole { description.now.services ≡ [] }
    ensures { IfOk result (AreCounts count) }
{
    let policy = policy_of(alloc, description)?;
    counts_by(alloc, count, description, &policy)
}

fn counts_by(
    alloc: Global,
    count: u16,
    description: &Description,
    policy: &Policy,
) -> Result<Counts, AllocError>
    requires few { count ≤ host_limit }
    requires described { described_by_table (sample_table count) ≡ Ok description.now }
    requires policy { IsPolicyOf description.now policy.now }
    requires permitted { policy.now.permitted.size ≡ length description.now.hosts }
    requires stateful { policy.now.stateful.size ≡ length description.now.hosts }
    requires whole { description.now.services ≡ [] }
    ensures { IfOk result (AreCounts count) }
{
    let (permitted, stateful) = (policy.permitted(), policy.stateful());
    let asked = FlowPolicy::new(
        description.hosts(),
        description.services(),
        permitted,
        stateful,
    );
    let table = table_lines(alloc, &asked)?;
    let run = run_counts(alloc, count, &asked)?;
    let offending = offending(alloc, description)?;
    Ok(Counts {
        hosts: asked.count(),
        asked: description.asked().len(),
        offending,
        permitted: permitted.len(),
        stateful: stateful.len(),
        table,
        run,
    })
}

fn counts_text(alloc: Global, count: u16, counts: &Counts) -> Result<Vec<u8>, AllocError>
    ensures { IfOk result (λ text. text.items ≡ counts_text count counts.now) }
{
    let mut text = Vec::new(alloc);
    push_count(&mut text, b"sample", count as usize)?;
    push_count(&mut text, b"hosts", counts.hosts as usize)?;
    push_count(&mut text, b"asked", counts.asked as usize)?;
    push_offending(&mut text, &counts.offending)?;
    push_count(&mut text, b"permitted", counts.permitted as usize)?;
    push_count(&mut text, b"stateful", counts.stateful as usize)?;
    push_count(&mut text, b"iptables", counts.run.rules as usize)?;
    push_table(&mut text, counts.table)?;
    push_count(&mut text, b"events", counts.run.events)?;
    push_count(&mut text, b"forwarded", counts.run.forwarded)?;
    Ok(text)
}

fn push_offending(text: &mut Vec<u8>, offending: &[u32]) -> Result<(), AllocError>
    ensures { OnOk result (text.new.items ≡ text.old.items ++ offending_lines offending.now) }
{
    for (place, count) in offending.iter().enumerate() {
        push_offence(text, place + 1, *count)?;
    }
    Ok(())
}

fn push_offence(text: &mut Vec<u8>, number: usize, count: u32) -> Result<(), AllocError>
    ensures { OnOk result (text.new.items ≡ text.old.items ++ count_line (codes "offending " ++ decimal number) count) }
{
    let mut digits = itoa::Buffer::new();
    text.extend_from_slice(b"offending ")?;
    push_count(text, digits.format(number).as_bytes(), count as usize)
}

fn push_table(text: &mut Vec<u8>, table: TableLines) -> Result<(), AllocError>
    ensures { OnOk result (text.new.items ≡ text.old.items ++ table_line table) }
{
    match table {
        TableLines::Lines(count) => push_count(text, b"openflow", count as usize),
        TableLines::NeedsState => text.extend_from_slice(b"openflow needs state\n"),
        TableLines::TooMany => text.extend_from_slice(b"openflow too many\n"),
    }
}

/// Appends a line with a word and a number.
fn push_count(text: &mut Vec<u8>, word: &[u8], count: usize) -> Result<(), AllocError>
    ensures { OnOk result (text.new.items ≡ text.old.items ++ count_line word.now count) }
{
    let mut digits = itoa::Buffer::new();
    text.extend_from_slice(word)?;
    text.extend_from_slice(b" ")?;
    text.extend_from_slice(digits.format(count).as_bytes())?;
    text.extend_from_slice(b"\n")
}
