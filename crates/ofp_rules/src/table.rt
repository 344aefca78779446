//! A flow table: entries of which no two contradict each other. Each frame has one verdict.

ghost use Rattle.std.specs.Prelude.{◌≡◌, ◌<◌, ◌^◌, ◌++◌, ◌∷◌, [], ℕ, length, slice_get, IsTrue, IsFalse, IfOk, IfErr, OnOk, OnErr, IfNone, IfSome, Some};
ghost use Rattle.std.specs.List.{list_all};
ghost use Rattle.std.specs.Option.{option_copied};
ghost use Rattle.ofp_rules.specs.declared.entry.Entry.{Entry};
ghost use Rattle.ofp_rules.specs.Matching.{asks_of_ip};
ghost use Rattle.ofp_rules.specs.Ambiguity.{Contradict};
ghost use Rattle.ofp_rules.specs.inner.Build.{IsNotAdded, IsRefused, IsTable};
ghost use Rattle.ofp_rules.specs.Semantics.{HasVerdict, verdict_of};
ghost use Rattle.ofp_rules.specs.inner.Highest.{IsFound, higher, is_above, verdict_by};
ghost use Rattle.ofp_rules.specs.inner.Next.{all_ends};
ghost use Rattle.host_net.specs.inner.CoverView.{IsIndexOf};

use crate::entry::{Action, Entry, Frame};
use crate::next::next_entry;
use host_net::{TupleSpaceIndex, Verdict};
use std::alloc::{AllocError, Global};
use std::marker::Model;

/// The maximum number of entries of a table.
pub const ENTRY_LIMIT: u32 = 8192;

// The initial capacity of a table, in entries.
const FIRST_ROOM: usize = 16;

/// Why entries form no table. Indices are 0-based.
#[derive(Clone, Copy, Debug, PartialEq, Eq)]
pub enum TableRefusal {
    /// There are more than 8,192 entries.
    TooMany { count: u32 },
    /// These two entries have equal priority and different actions, and match a common frame.
    Ambiguous { first: u32, second: u32 },
    /// An allocation failed.
    Memory,
}

impl From<AllocError> for TableRefusal {
    ghost use Rattle.std.specs.Prelude.{◌≡◌};
    ghost use Rattle.ofp_rules.specs.declared.table.TableRefusal.TheVariants.{Memory};

    ghost from_gives = { λ _ why. why ≡ Memory };

    fn from(_: AllocError) -> TableRefusal {
        TableRefusal::Memory
    }
}

/// A flow table with exactly one verdict for each frame.
#[derive(Drop)]
pub struct Table {
    pub(crate) entries: Vec<Entry>,
    // The index of the prefixes that the entries match on.
    index: TupleSpaceIndex,
}

impl Model for Table {
    ghost use Rattle.std.specs.Prelude.{List};
    ghost use Rattle.ofp_rules.specs.declared.entry.Entry.{Entry};

    ghost Value = { List Entry };

    ghost use Rattle.ofp_rules.specs.inner.Build.{IsTable};
    ghost use Rattle.ofp_rules.specs.inner.Next.{all_ends};
    ghost use Rattle.host_net.specs.inner.CoverView.{IsIndexOf};

    ghost view = { λ t. t.entries.items };

    ghost invariant = { λ t. IsTable t.entries.items × IsIndexOf (all_ends t.entries.items) t.index };
}

impl Table {
    /// Returns an empty table with capacity for a few entries.
    pub fn new(alloc: Global) -> Result<Table, AllocError>
        ensures empty { IfOk result (λ table. table ≡ []) }
        ensures table { IfOk result IsTable }
    {
        let entries = Vec::with_capacity(alloc, FIRST_ROOM)?;
        Ok(Table {
            entries,
            index: TupleSpaceIndex::new(alloc),
        })
    }

    /// Builds a table from the entries. Always consumes the entries, and copies each of them.
    ///
    /// The cost is one test for each pair of entries. The test compares the priorities, if these are
    /// equal the actions, and only if these differ the prefixes.
    pub fn build(alloc: Global, entries: Vec<Entry>) -> Result<Table, TableRefusal>
        requires asks { IsTrue (list_all asks_of_ip entries.items) }
        requires counted { length entries.items < 2 ^ 32 }
        ensures ok { IfOk result (λ table. table ≡ entries.items) }
        ensures table { IfOk result IsTable }
        ensures refused { IfErr result (IsRefused entries.items) }
    {
        let count = entries.len() as u32;
        if count > ENTRY_LIMIT {
            return Err(TableRefusal::TooMany { count });
        }
        let mut table = Table::new(alloc)?;
        for entry in &entries {
            table.add(*entry)?;
        }
        Ok(table)
    }

    /// Appends an entry. The cost is one test for each entry of the table.
    pub fn add(&mut self, entry: Entry) -> Result<(), TableRefusal>
        requires asks { IsTrue (asks_of_ip entry) }
        ensures added { OnOk result (self.new ≡ self.old ++ entry ∷ []) }
        ensures refused { IfErr result (IsNotAdded self.old entry) }
        ensures kept { OnErr result (self.new ≡ self.old) }
        ensures table { IsTable self.new }
    {
        let count = self.entries.len() as u32;
        if count >= ENTRY_LIMIT {
            return Err(TableRefusal::TooMany { count: count + 1 });
        }
        if let Some(first) = first_against(&self.entries, &entry) {
            return Err(TableRefusal::Ambiguous {
                first: first as u32,
                second: count,
            });
        }
        self.put(entry)?;
        Ok(())
    }

    // The allocation comes first: the table is unchanged if it fails.
    fn put(&mut self, entry: Entry) -> Result<(), AllocError>
        requires { IsTable (self.old ++ entry ∷ []) }
        ensures added { OnOk result (self.new ≡ self.old ++ entry ∷ []) }
        ensures kept { OnErr result (self.new ≡ self.old) }
        ensures table { IsTable self.new }
    {
        self.entries.reserve(1)?;
        self.index.add(entry.ends())?;
        self.entries.push(entry)?;
        Ok(())
    }

    /// Returns the number of entries.
    pub fn len(&self) -> u32
        ensures count { result ≡ length self.now }
        ensures table { IsTable self.now }
    {
        self.entries.len() as u32
    }

    /// Returns the entry at index `k`.
    pub fn entry(&self, k: u32) -> Entry
        requires { k < length self.now }
        ensures { slice_get self.now k ≡ Some result }
    {
        self.entries[k as usize]
    }

    /// Returns the verdict on a frame. Tests only the entries whose prefixes cover its addresses.
    pub fn verdict(&self, frame: &Frame) -> Verdict
        ensures { HasVerdict self.now frame.now result }
    {
        verdict_by(highest(&self.entries, &self.index, frame))
    }
}

/// Returns the index of the first of the earlier entries that contradicts the entry.
fn first_against(earlier: &[Entry], entry: &Entry) -> Option<usize>
    ensures found { IfSome result (λ k. (e : Entry) × (k < length earlier.now) × (slice_get earlier.now k ≡ Some e) × Contradict e entry.now) }
    ensures first { IfSome result (λ k. (j : ℕ) (e : Entry) → j < k → slice_get earlier.now j ≡ Some e → Contradict e entry.now → ⊥) }
    ensures nowhere { IfNone result ((j : ℕ) (e : Entry) → slice_get earlier.now j ≡ Some e → Contradict e entry.now → ⊥) }
{
    for (first, other) in earlier.iter().enumerate() {
        if other.contradicts(entry) {
            return Some(first);
        }
    }
    None
}

/// Returns the matching entry of the highest priority, the first if there are several.
fn highest<'a>(entries: &'a [Entry], index: &TupleSpaceIndex, frame: &Frame) -> Option<&'a Entry>
    requires { IsIndexOf (all_ends entries.now) index.now }
    ensures { IsFound entries.now frame.now (option_copied result) }
{
    let mut found = None;
    let mut from = 0;
    while let Some(at) = next_entry(index, from, frame) {
        found = higher(frame, found, &entries[at]);
        from = at + 1;
    }
    found
}

fn higher<'a>(frame: &Frame, found: Option<&'a Entry>, entry: &'a Entry) -> Option<&'a Entry>
    ensures { option_copied result ≡ higher frame.now (option_copied found.entry) entry.now }
{
    if entry.matches(frame) && is_above(entry.priority, found) {
        Some(entry)
    } else {
        found
    }
}

pub(crate) fn is_above(priority: u16, found: Option<&Entry>) -> bool
    ensures { result ≡ is_above priority (option_copied found.entry) }
{
    match found {
        None => true,
        Some(entry) => entry.priority < priority,
    }
}

pub(crate) fn verdict_by(found: Option<&Entry>) -> Verdict
    ensures { result ≡ verdict_by (option_copied found.entry) }
{
    match found {
        Some(entry) => verdict_of(entry.action),
        None => Verdict::Drop,
    }
}

fn verdict_of(action: Action) -> Verdict
    ensures { result ≡ verdict_of action }
{
    match action {
        Action::Normal => Verdict::Forward,
        Action::Drop => Verdict::Drop,
    }
}
