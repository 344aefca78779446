//! The entries of a flow table that decide no packet, and the dead rules of both dialects.

ghost use Rattle.std.specs.Prelude.{◌≡◌, IfOk, map};
ghost use Rattle.std.specs.List.{All};
ghost use Rattle.rules_space.specs.RulesView.{rules_of};
ghost use Rattle.decide_core.specs.DeadEntries.{AreDeadEntries};
ghost use Rattle.decide_core.specs.DeadPlaces.{AreDeadPlaces, AreRemovablePlaces};
ghost use Rattle.decide_core.specs.inner.Marked.{entry_at};

use crate::deciding::Deciding;
use header_space::{PacketBox, visit_all};
use ipt_rules::Place;
use ofp_rules::Table;
use pass_core::dead_rules;
use rules_space::RulesRef;
use std::alloc::{AllocError, Global};

/// Returns the numbers of the dead entries, from 0 and ascending: they decide no IPv4 packet.
///
/// Costs one pass over the table for each box of packets that the entries distinguish.
pub fn dead_entries(alloc: Global, table: &Table) -> Result<Vec<u32>, AllocError>
    ensures { IfOk result (λ entries. AreDeadEntries table.now entries.items) }
{
    let text = RulesRef::Ofp(table);
    let mut deciding = Deciding::none(alloc, &text, false)?;
    visit_all(alloc, &mut deciding, PacketBox::every())?;
    let entries = deciding.unmarked_entries(alloc, table.len())?;
    Ok(entries)
}

/// Returns the places of the dead rules of a text, in ascending order. An entry of a flow table has its number
/// as its place in chain 0.
pub fn dead_places(alloc: Global, text: &RulesRef<'_>) -> Result<Vec<Place>, AllocError>
    ensures dead { IfOk result (λ places. AreDeadPlaces (rules_of text.now) places.items) }
    ensures removable { IfOk result (λ places. AreRemovablePlaces (rules_of text.now) places.items) }
{
    // This call establishes that each packet has one verdict.
    let _rules = text.rules();
    match text {
        RulesRef::Ipt(rules) => dead_rules(alloc, rules),
        RulesRef::Ofp(table) => dead_entry_places(alloc, table),
    }
}

fn dead_entry_places(alloc: Global, table: &Table) -> Result<Vec<Place>, AllocError>
    ensures chain { IfOk result (λ places. All (λ place. place.chain ≡ 0) places.items) }
    ensures dead { IfOk result (λ places. AreDeadEntries table.now (map (λ place. place.rule) places.items)) }
{
    let entries = dead_entries(alloc, table)?;
    let places = entry_places(alloc, &entries)?;
    Ok(places)
}

/// Returns the places of the entries with these numbers.
fn entry_places(alloc: Global, entries: &[u32]) -> Result<Vec<Place>, AllocError>
    ensures { IfOk result (λ places. places.items ≡ map entry_at entries.now) }
{
    entries
        .iter()
        .map(|entry| Place {
            chain: 0,
            rule: *entry,
        })
        .collect(alloc)
}
