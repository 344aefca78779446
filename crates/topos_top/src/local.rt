//! `local FILE HOST` and `local nft FILE HOST`: the rules for the machines of one host, unless the
//! policy was listed and violates an invariant.

ghost use Rattle.std.specs.Prelude.{◌≡◌, ◌<◌, IfOk, IsTrue, Some, false, length};
ghost use Rattle.host_emit.specs.LocalLayout.{is_specific};
ghost use Rattle.host_net.specs.Host.{host_named};
ghost use Rattle.run_core.specs.Outcomes.{Answers};
ghost use Rattle.topos_top.specs.Local.{IsMachineText, local_outcomes};
ghost use Rattle.topos_top.specs.inner.Local.{local_dialect_of, local_plan, machines_outcomes, rest_host_line};
ghost use Rattle.run_core.specs.Reply.{no_host_line};
ghost use Rattle.run_core.specs.Replies.{IsPossibleReply};
ghost use Rattle.run_core.specs.Shelf.{shelf_change};
ghost use Rattle.run_core.specs.inner.Views.{reply_view, reply_in, text_view};

use crate::listed::listed_offences;
use desc_core::Description;
use edge_io::Shelf;
use host_emit::{is_specific, local_rules};
use net_core::policy_of;
use nft_local::local_table_text;
use pkt_core::FlowPolicy;
use run_core::{Answer, Rules, Status, Text, no_host_line, policy_between, read_description};
use std::alloc::{AllocError, Global};

/// A dialect of the rules for the machines of a host.
#[derive(Clone, Copy)]
pub enum LocalDialect {
    /// Chains of iptables.
    Chains,
    /// A table of nftables.
    Table,
}

/// Returns the reply for the file of that name and the host of that name.
pub fn reply<'a, H: Shelf>(
    alloc: Global,
    dialect: LocalDialect,
    file: &'a str,
    host: &str,
    shelf: &mut H,
) -> Result<Answer<'a>, Answer<'a>>
    ensures { IsPossibleReply false (local_plan (local_dialect_of dialect) file.now host.now)
        (shelf_change H.Shelf shelf.old shelf.new) (reply_in result) }
{
    let description = read_description(alloc, file, shelf)?;
    Answer::of_outcomes(answer(alloc, dialect, &description, host))
}

/// Returns the rules, or the reason why there are none.
fn answer<'a>(
    alloc: Global,
    dialect: LocalDialect,
    description: &Description,
    host: &str,
) -> Result<Answer<'a>, AllocError>
    ensures { IfOk result (λ answer. Answers false (local_outcomes (local_dialect_of dialect) description.now host.now) (reply_view answer)) }
{
    match listed_offences(alloc, description)? {
        Some(report) => Ok(Answer::error(Status::Violated, Text::Report(report))),
        None => machines(alloc, dialect, description, host),
    }
}

/// Returns the rules for the machines of the host of that name, or the line that there are none.
fn machines<'a>(
    alloc: Global,
    dialect: LocalDialect,
    description: &Description,
    host: &str,
) -> Result<Answer<'a>, AllocError>
    ensures { IfOk result (λ answer. Answers false (machines_outcomes (local_dialect_of dialect) description.now host.now) (reply_view answer)) }
{
    let hosts = description.hosts();
    let Some(number) = hosts.find(host.as_bytes()) else {
        return Ok(Answer::not_emittable(no_host_line(alloc, host)?));
    };
    if !is_specific(hosts, number) {
        return Ok(Answer::not_emittable(rest_host_line(alloc, host)?));
    }
    specific_machines(alloc, dialect, description, host, number)
}

/// Returns the rules for the machines of a specific host.
fn specific_machines<'a>(
    alloc: Global,
    dialect: LocalDialect,
    description: &Description,
    host: &str,
    number: u16,
) -> Result<Answer<'a>, AllocError>
    requires named { host_named description.now.hosts host.now ≡ Some number }
    requires specific { IsTrue (is_specific description.now.hosts number) }
    ensures { IfOk result (λ answer. Answers false (machines_outcomes (local_dialect_of dialect) description.now host.now) (reply_view answer)) }
{
    let policy = policy_of(alloc, description)?;
    let text = machine_text(
        alloc,
        dialect,
        &policy_between(description, &policy),
        number,
    )?;
    Ok(Answer::done(text))
}

/// Returns the text of the rules for the machines of a specific host.
fn machine_text<'a>(
    alloc: Global,
    dialect: LocalDialect,
    policy: &FlowPolicy<'_>,
    host: u16,
) -> Result<Text<'a>, AllocError>
    requires there { host < length policy.now.site.hosts }
    requires specific { IsTrue (is_specific policy.now.site.hosts host) }
    ensures { IfOk result (λ text. IsMachineText (local_dialect_of dialect) policy.now host (text_view text)) }
{
    match dialect {
        LocalDialect::Chains => {
            let rules = local_rules(alloc, policy, host)?;
            Ok(Text::Rules(Rules::Chains(rules)))
        }
        LocalDialect::Table => Ok(Text::Bytes(local_table_text(alloc, policy, host)?)),
    }
}

/// Returns the line that reports that the host is the rest host.
fn rest_host_line(alloc: Global, host: &str) -> Result<Vec<u8>, AllocError>
    ensures { IfOk result (λ line. line.items ≡ rest_host_line host.now) }
{
    let mut line = Vec::new(alloc);
    line.extend_from_slice(b"topos: not emittable: ")?;
    line.extend_from_slice(host.as_bytes())?;
    line.extend_from_slice(b" is the rest host\n")?;
    Ok(line)
}
