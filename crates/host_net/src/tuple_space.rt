//! Tuple space search (Srinivasan, Suri, Varghese 1999): an index of the source and destination
//! prefixes of rules. It finds the first rule whose prefixes cover both addresses of a packet. Keys
//! with equal prefix lengths are adjacent, sorted by their significant bits and then by index. A
//! lookup does one search for each pair of lengths in use, and skips the pairs whose first rule
//! comes after the best match. A hash table locates most keys directly, so binary search is rarely
//! needed.

ghost use Rattle.std.specs.Prelude.{◌≡◌, ◌<◌, ◌≤◌, ◌^◌, ◌+◌, ◌++◌, ◌∷◌, [], List, IfOk, OnOk, OnErr, Contains, IsTrue, ◌↔◌, length};
ghost use Rattle.std.specs.List.Sorted.{IsNonDecreasingBy, IsPartitionPoint};
ghost use Rattle.host_net.specs.declared.tuple_space.Ends.{Ends};
ghost use Rattle.host_net.specs.declared.tuple_space.Group.{Group};
ghost use Rattle.host_net.specs.declared.tuple_space.Key.{Key};
ghost use Rattle.host_net.specs.inner.Cover.{IsFirstFrom};
ghost use Rattle.host_net.specs.inner.CoverView.{AreFirst, AreInOrder, AreListed, Begins, IsFirstKey, IsFirstOf, IsIndexOf, IsSmall, SameBits, comes_before, count_in, earlier, has_lengths, key_at, key_of, keys_from, length_of, lengths_of, noted, own_address, rank};

use crate::prefix::{Prefix, front};
use std::alloc::{AllocError, Global};

/// The prefixes that a rule matches on. A missing prefix covers every address.
#[derive(Clone, Copy, Debug, PartialEq, Eq)]
pub struct Ends {
    pub src: Option<Prefix>,
    pub dst: Option<Prefix>,
}

/// The number of significant bits of each address.
#[derive(Clone, Copy, PartialEq, Eq)]
struct Lengths {
    src: u8,
    dst: u8,
}

/// The significant bits of both addresses, and the index of the entry.
#[derive(Clone, Copy)]
struct Key {
    lengths: Lengths,
    src: u32,
    dst: u32,
    place: u32,
}

/// A pair of lengths in use, and the index of the first entry with these lengths.
#[derive(Clone, Copy)]
struct Group {
    lengths: Lengths,
    first: u32,
}

/// An index of a list of `Ends`.
#[derive(Drop)]
pub struct TupleSpaceIndex {
    keys: Vec<Key>,
    groups: Vec<Group>,
    /// A hash table from significant bits to their first key. It is only a hint: each lookup
    /// compares the key.
    hash_table: Vec<u32>,
}

/// The number of slots in the hash table for each distinct combination of bits.
const SLOTS_PER_KEY: usize = 2;

/// The number of consecutive slots that are probed for a key. Other keys are found by binary
/// search.
const PROBE_LIMIT: usize = 8;

/// The content of an empty slot.
const EMPTY_SLOT: u32 = u32::MAX;

/// 2^64 divided by the golden ratio. Multiplication by it spreads adjacent numbers (multiplicative
/// hashing: Knuth, The Art of Computer Programming, volume 3, section 6.4).
const MULTIPLIER: u64 = 0x9e37_79b9_7f4a_7c15;

fn length_of(part: Option<Prefix>) -> u8
    ensures { result ≡ length_of part }
{
    match part {
        None => 0,
        Some(prefix) => prefix.len(),
    }
}

fn own_address(part: Option<Prefix>) -> u32
    ensures { result ≡ own_address part }
{
    match part {
        None => 0,
        Some(prefix) => prefix.addr(),
    }
}

fn lengths_of(ends: Ends) -> Lengths
    ensures { result ≡ lengths_of ends }
{
    Lengths {
        src: length_of(ends.src),
        dst: length_of(ends.dst),
    }
}

fn key_at(lengths: Lengths, src: u32, dst: u32, place: u32) -> Key
    ensures { result ≡ key_at lengths src dst place }
{
    Key {
        lengths,
        src: front(lengths.src, src),
        dst: front(lengths.dst, dst),
        place,
    }
}

fn key_of(ends: Ends, place: u32) -> Key
    ensures key { result ≡ key_of ends place }
    ensures small { IsSmall result }
{
    key_at(
        lengths_of(ends),
        own_address(ends.src),
        own_address(ends.dst),
        place,
    )
}

impl Key {
    /// Returns the number by which keys are sorted.
    #[tactic(auto, unfolding(crate::specs::inner::CoverView::rank))]
    fn rank(&self) -> u128
        ensures { result ≡ rank self.now }
    {
        let lengths = self.lengths.src as u128 * (1 << 8) + self.lengths.dst as u128;
        let bits = (lengths * (1 << 32) + self.src as u128) * (1 << 32) + self.dst as u128;
        bits * (1 << 32) + self.place as u128
    }

    /// Whether both keys have the same significant bits.
    fn shares_bits(&self, other: &Key) -> bool
        ensures { IsTrue result ↔ SameBits self.now other.now }
    {
        self.lengths == other.lengths && self.src == other.src && self.dst == other.dst
    }
}

/// Returns the first slot to probe for the bits of a key, in a hash table of length `len`.
fn slot_of(key: &Key, len: usize) -> usize {
    let lengths = (key.lengths.src as u64) << 8 | key.lengths.dst as u64;
    let bits = (key.src as u64) << 32 | key.dst as u64;
    let hash = (bits ^ lengths << 48).wrapping_mul(MULTIPLIER) >> 32;
    (hash.wrapping_mul(len as u64) >> 32) as usize
}

/// Returns the slots that are probed for the bits of a key.
fn probes_of<'a>(hash_table: &'a [u32], key: &Key) -> &'a [u32] {
    let slot = slot_of(key, hash_table.len().saturating_sub(PROBE_LIMIT));
    match hash_table.get(slot..slot.saturating_add(PROBE_LIMIT)) {
        Some(places) => places,
        None => &[],
    }
}

/// Whether `at` is the partition point: the index of the first key with rank at least `least`.
fn is_place(keys: &[Key], at: usize, least: u128) -> bool
    ensures within { IsTrue result → at ≤ length keys.now }
    ensures point { IsTrue result → IsNonDecreasingBy rank keys.now → IsPartitionPoint (λ k. rank k < least) (λ k. least ≤ rank k) keys.now at }
{
    if at >= keys.len() || keys[at].rank() < least {
        return false;
    }
    at == 0 || keys[at - 1].rank() < least
}

/// Returns the number of keys before the first one with at least the rank of `key`.
fn place_of(keys: &[Key], hash_table: &[u32], key: &Key) -> usize
    ensures bound { result ≤ length keys.now }
    ensures point { IsNonDecreasingBy rank keys.now → IsPartitionPoint (λ k. rank k < rank key.now) (λ k. rank key.now ≤ rank k) keys.now result }
{
    let least = key.rank();
    for place in probes_of(hash_table, key) {
        if *place == EMPTY_SLOT {
            break;
        }
        if is_place(keys, *place as usize, least) {
            return *place as usize;
        }
    }
    searched(keys, least)
}

/// Returns the number of keys before the first one with rank at least `least`, by binary search.
fn searched(keys: &[Key], least: u128) -> usize
    ensures bound { result ≤ length keys.now }
    ensures point { IsNonDecreasingBy rank keys.now → IsPartitionPoint (λ k. rank k < least) (λ k. least ≤ rank k) keys.now result }
{
    keys.partition_point(|key| key.rank() < least)
}

/// Returns the index of the first key with the same bits, from that of `from` on.
fn next_of(keys: &[Key], hash_table: &[u32], from: &Key) -> Option<usize>
    ensures { AreInOrder keys.now → IsFirstKey (λ k. SameBits k from.now) keys.now from.now.place result }
{
    let at = place_of(keys, hash_table, from);
    if at == keys.len() {
        return None;
    }
    let key = &keys[at];
    if key.shares_bits(from) {
        Some(key.place as usize)
    } else {
        None
    }
}

fn earlier(first: Option<usize>, second: Option<usize>) -> Option<usize>
    ensures { result ≡ earlier first second }
{
    match (first, second) {
        (Some(one), Some(other)) => Some(one.min(other)),
        (Some(one), None) => Some(one),
        (None, other) => other,
    }
}

impl TupleSpaceIndex {
    /// Returns an empty index.
    #[tactic(auto, using(crate::proofs::CoverLemmas::no_index))]
    pub fn new(alloc: Global) -> TupleSpaceIndex
        ensures { IsIndexOf [] result }
    {
        TupleSpaceIndex {
            keys: Vec::new(alloc),
            groups: Vec::new(alloc),
            hash_table: Vec::new(alloc),
        }
    }

    /// Builds the index of a list.
    pub fn of(alloc: Global, all: &[Ends]) -> Result<TupleSpaceIndex, AllocError>
        requires { length all.now < 2 ^ 32 }
        ensures { IfOk result (IsIndexOf all.now) }
    {
        let mut keys = keys_of(alloc, all)?;
        let groups = groups_of(alloc, &keys)?;
        keys.sort_unstable_by_key(|key| key.rank());
        let hash_table = hash_table_of(alloc, &keys)?;
        Ok(TupleSpaceIndex {
            keys,
            groups,
            hash_table,
        })
    }

    /// Appends one entry.
    pub fn add(&mut self, ends: Ends) -> Result<(), AllocError>
        requires { count_in self.old + 1 < 2 ^ 32 }
        ensures added { OnOk result ((all : List Ends) → IsIndexOf all self.old → IsIndexOf (all ++ ends ∷ []) self.new) }
        ensures kept { OnErr result ((all : List Ends) → IsIndexOf all self.old → IsIndexOf all self.new) }
    {
        let key = key_of(ends, self.keys.len() as u32);
        note(&mut self.groups, &key)?;
        let place = place_of(&self.keys, &self.hash_table, &key);
        self.keys.insert(place, key)?;
        Ok(())
    }

    /// Returns the first index, from `from` on, whose prefixes cover both addresses.
    pub fn first(&self, from: usize, src: u32, dst: u32) -> Option<usize>
        ensures { (all : List Ends) → IsIndexOf all self.now → IsFirstFrom all from src dst result }
    {
        if from > u32::MAX as usize {
            return None;
        }
        first_among(
            &self.keys,
            &self.groups,
            &self.hash_table,
            from as u32,
            src,
            dst,
        )
    }
}

fn first_among(
    keys: &[Key],
    groups: &[Group],
    hash_table: &[u32],
    from: u32,
    src: u32,
    dst: u32,
) -> Option<usize>
    ensures { AreInOrder keys.now → AreFirst groups.now keys.now
        → IsFirstKey (Begins groups.now src dst) keys.now from result }
{
    let mut first = None;
    for group in groups {
        first = first_with(keys, hash_table, *group, first, from, src, dst);
    }
    first
}

/// Returns the earlier of the match found so far and the first match of the group.
fn first_with(
    keys: &[Key],
    hash_table: &[u32],
    group: Group,
    found: Option<usize>,
    from: u32,
    src: u32,
    dst: u32,
) -> Option<usize>
    ensures { (seen : List Group) → AreInOrder keys.now → IsFirstOf group keys.now
        → IsFirstKey (Begins seen src dst) keys.now from found
        → IsFirstKey (Begins (seen ++ group ∷ []) src dst) keys.now from result }
{
    if comes_before(found, group.first) {
        return found;
    }
    let next = next_of(keys, hash_table, &key_at(group.lengths, src, dst, from));
    earlier(found, next)
}

fn comes_before(found: Option<usize>, place: u32) -> bool
    ensures { result ≡ comes_before found place }
{
    match found {
        Some(found) => found <= place as usize,
        None => false,
    }
}

fn keys_of(alloc: Global, all: &[Ends]) -> Result<Vec<Key>, AllocError>
    requires { length all.now < 2 ^ 32 }
    ensures keys { IfOk result (λ keys. keys.items ≡ keys_from 0 all.now) }
    ensures small { IfOk result (λ keys. (k : Key) → Contains keys.items k → IsSmall k) }
{
    let mut keys = Vec::with_capacity(alloc, all.len())?;
    for (place, ends) in all.iter().enumerate() {
        keys.push(key_of(*ends, place as u32))?;
    }
    Ok(keys)
}

/// Returns the groups of keys that are in order of their indices.
fn groups_of(alloc: Global, keys: &[Key]) -> Result<Vec<Group>, AllocError>
    ensures listed { IfOk result (λ groups. AreListed groups.items keys.now) }
    ensures first { (all : List Ends) → keys.now ≡ keys_from 0 all
        → IfOk result (λ groups. AreFirst groups.items keys.now) }
{
    let mut groups = Vec::new(alloc);
    for key in keys {
        note(&mut groups, key)?;
    }
    Ok(groups)
}

/// Builds the hash table of sorted keys.
fn hash_table_of(alloc: Global, keys: &[Key]) -> Result<Vec<u32>, AllocError> {
    let len = count_of_bits(keys)
        .saturating_mul(SLOTS_PER_KEY)
        .saturating_add(PROBE_LIMIT);
    let mut hash_table = vec![in alloc; EMPTY_SLOT; len]?;
    for (place, key) in keys.iter().enumerate() {
        if place == 0 || !key.shares_bits(&keys[place - 1]) {
            let place = u32::try_from(place).unwrap_or(EMPTY_SLOT);
            insert_slot(&mut hash_table, key, place);
        }
    }
    Ok(hash_table)
}

/// Returns the number of distinct bit combinations of sorted keys.
fn count_of_bits(keys: &[Key]) -> usize {
    let mut count: usize = 0;
    for (place, key) in keys.iter().enumerate() {
        if place == 0 || !key.shares_bits(&keys[place - 1]) {
            count = count.saturating_add(1);
        }
    }
    count
}

/// Stores the first key of some bits, if one of the slots probed for it is empty.
fn insert_slot(hash_table: &mut [u32], key: &Key, place: u32) {
    let slot = slot_of(key, hash_table.len().saturating_sub(PROBE_LIMIT));
    if let Some(places) = hash_table.get_mut(slot..slot.saturating_add(PROBE_LIMIT)) {
        if let Some(free) = places.iter_mut().find(|place| **place == EMPTY_SLOT) {
            *free = place;
        }
    }
}

/// Appends a group for the key if its lengths are new.
fn note(groups: &mut Vec<Group>, key: &Key) -> Result<(), AllocError>
    ensures ok { OnOk result (groups.new.items ≡ noted groups.old.items key.now) }
    ensures err { OnErr result (groups.new.items ≡ groups.old.items) }
{
    if !has_lengths(groups, key.lengths) {
        groups.push(Group {
            lengths: key.lengths,
            first: key.place,
        })?;
    }
    Ok(())
}

fn has_lengths(groups: &[Group], lengths: Lengths) -> bool
    ensures { result ≡ has_lengths groups.now lengths }
{
    groups.iter().any(|group| group.lengths.src == lengths.src && group.lengths.dst == lengths.dst)
}
