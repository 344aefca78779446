//! The entries of the prefix lists, by host and item, and the refusals of single entries.
ghost use Rattle.std.specs.Prelude.{◌≡◌, ◌++◌, flat_map, map, IfOk, OnOk};
ghost use Rattle.desc_form.specs.declared.refusal.Place.TheVariants.{Host};
ghost use Rattle.text_core.specs.FirstMatch.{numbered};
ghost use Rattle.desc_form.specs.HostConditions.{bad_prefix, entries_of, host_bits};
ghost use Rattle.desc_form.specs.Refusals.{refused_item};
ghost use Rattle.desc_form.specs.inner.RawView.{host_view};
ghost use Rattle.desc_form.specs.inner.EntryView.{entries_at, entry_at, entry_view, has_host_bits, is_prefix, too_many_prefixes};

use crate::raw::RawHost;
use crate::refusal::{Place, Refusal, Why};
use host_net::{PREFIX_LIMIT, Prefix, read_prefix};
use std::alloc::{AllocError, Global};

/// An entry of the prefix list of a host: the number of the host, its item number in the list, from
/// 1, and the prefix that it denotes. It is parsed once, and each condition uses the parse result.
#[derive(Clone, Copy)]
pub(crate) struct Entry {
    pub(crate) host: u64,
    pub(crate) item: u64,
    pub(crate) prefix: Option<Prefix>,
}

impl Entry {
    /// Returns the refusal of the entry.
    fn refused(&self, why: Why) -> Refusal
        ensures { result ≡ refused_item why (Host self.now.host) self.now.item }
    {
        Refusal::at(why, Place::Host(self.host)).with_item(self.item)
    }
}

/// Returns the entries of all hosts, by host and item.
pub(crate) fn all_entries(alloc: Global, hosts: &[RawHost<'_>]) -> Result<Vec<Entry>, AllocError>
    ensures { IfOk result (λ entries. map entry_view entries.items ≡ flat_map entries_of (numbered (map host_view hosts.now))) }
{
    let mut entries = Vec::new(alloc);
    for (index, host) in hosts.iter().enumerate() {
        push_entries(&mut entries, index as u64 + 1, &host.at)?;
    }
    Ok(entries)
}

fn push_entries(entries: &mut Vec<Entry>, host: u64, texts: &[&str]) -> Result<(), AllocError>
    ensures { OnOk result (map entry_view entries.new.items ≡ map entry_view entries.old.items
        ++ entries_at host (map (λ text. text.now) texts.now)) }
{
    for (index, text) in texts.iter().enumerate() {
        entries.push(read_entry(host, index as u64 + 1, text))?;
    }
    Ok(())
}

fn read_entry(host: u64, item: u64, text: &str) -> Entry
    ensures { entry_view result ≡ entry_at host (record { number = item; what = text.now }) }
{
    Entry {
        host,
        item,
        prefix: read_prefix(text.as_bytes()),
    }
}

/// Returns the refusal if the number of prefixes of all hosts exceeds the limit.
pub(crate) fn too_many_prefixes(entries: &[Entry]) -> Option<Refusal>
    ensures { result ≡ too_many_prefixes (map entry_view entries.now) }
{
    let entry = entries.get(PREFIX_LIMIT)?;
    Some(entry.refused(Why::TooMany))
}

/// Returns the refusal of an entry that is no prefix, or a prefix of length 0.
#[tactic(auto, unfolding(crate::specs::HostConditions::bad_prefix))]
pub(crate) fn bad_prefix(entries: &[Entry]) -> Option<Refusal>
    ensures { result ≡ bad_prefix (map entry_view entries.now) }
{
    for entry in entries {
        if !is_prefix(entry.prefix) {
            return Some(entry.refused(Why::BadPrefix));
        }
    }
    None
}

/// Returns the refusal of an entry with bits set after its length.
#[tactic(auto, unfolding(crate::specs::HostConditions::host_bits))]
pub(crate) fn host_bits(entries: &[Entry]) -> Option<Refusal>
    ensures { result ≡ host_bits (map entry_view entries.now) }
{
    for entry in entries {
        if has_host_bits(entry.prefix) {
            return Some(entry.refused(Why::HostBits));
        }
    }
    None
}

/// Whether the entry is a prefix of at least one bit.
fn is_prefix(said: Option<Prefix>) -> bool
    ensures { result ≡ is_prefix said }
{
    match said {
        Some(prefix) => prefix.len() > 0,
        None => false,
    }
}

/// Whether the entry is a prefix with bits set after its length.
fn has_host_bits(said: Option<Prefix>) -> bool
    ensures { result ≡ has_host_bits said }
{
    match said {
        Some(prefix) => !prefix.exact(),
        None => false,
    }
}
