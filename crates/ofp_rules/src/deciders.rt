//! The entry of a table that decides the packets of a box. Each entry that could decide narrows the box
//! until the entry matches all of its packets or none of them.

ghost use Rattle.std.specs.Prelude.{◌≡◌, ◌≤◌, length, Option, ℕ};
ghost use Rattle.host_net.specs.declared.packet.Packet.{Packet};
ghost use Rattle.header_space.specs.Boxes.{IsBox, IsIn, Narrows};
ghost use Rattle.ofp_rules.specs.declared.entry.Frame.TheVariants.{Ipv4};
ghost use Rattle.ofp_rules.specs.Deciders.{IsEntryDecider, decided};
ghost use Rattle.ofp_rules.specs.Semantics.{HasVerdict};
ghost use Rattle.ofp_rules.specs.inner.Deciding.{found_with, is_higher, place_of};

use crate::entry::Entry;
use crate::table::Table;
use header_space::PacketBox;

/// The entry that decides among the entries tested so far.
#[derive(Clone, Copy)]
pub(crate) struct Found {
    pub(crate) place: u32,
    pub(crate) priority: u16,
}

impl Table {
    /// Returns the index of the entry that decides the least packet of a box, or None if no entry matches.
    /// Narrows the box until the result is the same for all of its packets.
    pub fn decider_within(&self, within: &mut PacketBox) -> Option<u32>
        requires { IsBox within.old }
        ensures part { Narrows within.old within.new }
        ensures decider { (p : Packet) → IsIn within.new p → IsEntryDecider self.now (Ipv4 p) result }
        // The decider is unique, and the verdict of the table is the verdict of the decider.
        ensures only { (p : Packet) → IsIn within.new p → (other : Option ℕ) → IsEntryDecider self.now (Ipv4 p) other → other ≡ result }
        ensures verdict { (p : Packet) → IsIn within.new p → HasVerdict self.now (Ipv4 p) (decided self.now result) }
    {
        let entries = self.entries.as_slice();
        decider_among(entries, within)
    }
}

/// Returns the index of the entry that decides the packets of a box.
fn decider_among(entries: &[Entry], within: &mut PacketBox) -> Option<u32>
    requires few { length entries.now ≤ 8192 }
    requires is_box { IsBox within.old }
    ensures part { Narrows within.old within.new }
    ensures decider { (p : Packet) → IsIn within.new p → IsEntryDecider entries.now (Ipv4 p) result }
    ensures only { (p : Packet) → IsIn within.new p → (other : Option ℕ) → IsEntryDecider entries.now (Ipv4 p) other → other ≡ result }
    ensures verdict { (p : Packet) → IsIn within.new p → HasVerdict entries.now (Ipv4 p) (decided entries.now result) }
{
    place_of(found_within(entries, within))
}

fn place_of(found: Option<Found>) -> Option<u32>
    ensures { result ≡ place_of found }
{
    match found {
        Some(found) => Some(found.place),
        None => None,
    }
}

fn found_within(entries: &[Entry], within: &mut PacketBox) -> Option<Found>
    requires few { length entries.now ≤ 8192 }
    requires is_box { IsBox within.old }
    ensures part { Narrows within.old within.new }
    ensures decider { (p : Packet) → IsIn within.new p → IsEntryDecider entries.now (Ipv4 p) (place_of result) }
{
    let mut found = None;
    for at in 0..entries.len() {
        found = found_with(within, found, &entries[at], at as u32);
    }
    found
}

fn found_with(
    within: &mut PacketBox,
    found: Option<Found>,
    entry: &Entry,
    place: u32,
) -> Option<Found>
    requires { IsBox within.old }
    ensures part { Narrows within.old within.new }
    ensures found { (p : Packet) → IsIn within.new p → result ≡ found_with (Ipv4 p) found entry.now place }
{
    if !is_higher(entry.priority, found) {
        return found;
    }
    if entry.matches_within(within) {
        Some(Found {
            place,
            priority: entry.priority,
        })
    } else {
        found
    }
}

fn is_higher(priority: u16, found: Option<Found>) -> bool
    ensures { result ≡ is_higher priority found }
{
    match found {
        None => true,
        Some(found) => found.priority < priority,
    }
}
