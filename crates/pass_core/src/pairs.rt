//! The services that pass, for each pair of owners of addresses.

ghost use Rattle.std.specs.Prelude.{◌≡◌, ◌↔◌, ◌++◌, ◌∷◌, [], ℕ, IfOk, IsTrue, OnOk, if◌then◌else◌};
ghost use Rattle.std.specs.List.{All};
ghost use Rattle.header_space.specs.Owners.{GoesBetween, HasRanges, IsRange, LiesIn, LiesInOne};
ghost use Rattle.pass_core.specs.Pairs.{AreListed, AreListedFrom, IsListedFor};
ghost use Rattle.pass_core.specs.inner.Areas.{IsArea};
ghost use Rattle.pass_core.specs.inner.Listing.{AreSources, IsAdded, IsPacketIn, PassesSome, every_address};

use crate::area::{Area, areas_between};
use crate::passing::services_between;
use crate::passing_range::PassingRange;
use header_space::{AddressRange, Owned, Question, box_between, least_where};
use std::alloc::{AllocError, Global};

/// The services that pass from one owner to another, wholly or in part.
#[derive(Drop)]
pub struct PairServices {
    /// The owner of the sources, or `None` for addresses without an owner.
    pub from: Option<u16>,
    /// The owner of the destinations, or `None` for addresses without an owner.
    pub to: Option<u16>,
    pub ranges: Vec<PassingRange>,
}

/// Returns the services that pass for each pair of owners, including pairs of an owner with itself, if some
/// packet of the pair passes. A packet passes if the question holds for it.
pub fn services_by_pairs<Q: Question>(
    alloc: Global,
    question: &Q,
    owned: &[Owned],
) -> Result<Vec<PairServices>, AllocError>
    requires { All HasRanges owned.now }
    ensures { IfOk result (λ list. AreListed (Q.holds_of question.now) owned.now list.items) }
{
    let mut list = Vec::new(alloc);
    for from in owned {
        push_from(alloc, &mut list, question, from, owned)?;
    }
    Ok(list)
}

/// Lists the pairs of one source owner. Restricts the question to its packets if this is worth the cost.
fn push_from<Q: Question>(
    alloc: Global,
    list: &mut Vec<PairServices>,
    question: &Q,
    from: &Owned,
    owned: &[Owned],
) -> Result<(), AllocError>
    requires from { HasRanges from.now }
    requires to { All HasRanges owned.now }
    ensures { OnOk result (IsAdded (AreListedFrom (Q.holds_of question.now) owned.now from.now) list.old.items list.new.items) }
{
    let within = box_between(hull(&from.ranges), every_address());
    match question.restrict(alloc, &within)? {
        None => push_pairs(alloc, list, question, from, owned),
        Some(part) => push_pairs(alloc, list, &part, from, owned),
    }
}

/// Lists the pairs of one source owner with all destination owners.
pub(crate) fn push_pairs<Q: Question>(
    alloc: Global,
    list: &mut Vec<PairServices>,
    question: &Q,
    from: &Owned,
    owned: &[Owned],
) -> Result<(), AllocError>
    requires from { HasRanges from.now }
    requires to { All HasRanges owned.now }
    ensures { OnOk result (IsAdded (AreListedFrom (Q.holds_of question.now) owned.now from.now) list.old.items list.new.items) }
{
    let sources = sources_of(alloc, question, &from.ranges)?;
    for to in owned {
        push_pair(alloc, list, question, from, &sources, to)?;
    }
    Ok(())
}

/// Lists a pair of owners, if some packet of it passes. `sources` contains each source address from which
/// some packet passes.
pub(crate) fn push_pair<Q: Question>(
    alloc: Global,
    list: &mut Vec<PairServices>,
    question: &Q,
    from: &Owned,
    sources: &[AddressRange],
    to: &Owned,
) -> Result<(), AllocError>
    requires from { HasRanges from.now }
    requires sources { AreSources (Q.holds_of question.now) from.now.ranges.items sources.now }
    requires to { HasRanges to.now }
    ensures { OnOk result (IsAdded
        (IsListedFor (Q.holds_of question.now) (GoesBetween from.now.ranges.items to.now.ranges.items) from.now.owner to.now.owner)
        list.old.items list.new.items) }
{
    let passes = passes_some(alloc, question, sources, &to.ranges)?;
    if !passes {
        return Ok(());
    }
    let ranges = services_between(alloc, question, &from.ranges, &to.ranges)?;
    list.push(PairServices {
        from: from.owner,
        to: to.owner,
        ranges,
    })?;
    Ok(())
}

/// Returns the ranges from which some packet passes.
pub(crate) fn sources_of<Q: Question>(
    alloc: Global,
    question: &Q,
    ranges: &[AddressRange],
) -> Result<Vec<AddressRange>, AllocError>
    requires { All IsRange ranges.now }
    ensures { IfOk result (λ sources. AreSources (Q.holds_of question.now) ranges.now sources.items) }
{
    let mut sources = Vec::new(alloc);
    for range in ranges {
        let area = Area {
            from: *range,
            to: every_address(),
        };
        let wanted = passes_in(alloc, question, area)?;
        push_if(&mut sources, wanted, *range)?;
    }
    Ok(sources)
}

fn push_if(
    ranges: &mut Vec<AddressRange>,
    wanted: bool,
    range: AddressRange,
) -> Result<(), AllocError>
    ensures { OnOk result (ranges.new.items ≡ ranges.old.items ++ (if wanted then range ∷ [] else [])) }
{
    if wanted {
        ranges.push(range)?;
    }
    Ok(())
}

/// Whether some packet passes from one of the ranges to one of the other ranges.
fn passes_some<Q: Question>(
    alloc: Global,
    question: &Q,
    from: &[AddressRange],
    to: &[AddressRange],
) -> Result<bool, AllocError>
    requires from { All IsRange from.now }
    requires to { All IsRange to.now }
    ensures { IfOk result (λ some. IsTrue some ↔ PassesSome (Q.holds_of question.now) (GoesBetween from.now to.now)) }
{
    let areas = areas_between(alloc, from, to)?;
    for area in &areas {
        let passes = passes_in(alloc, question, *area)?;
        if passes {
            return Ok(true);
        }
    }
    Ok(false)
}

/// Whether some packet passes from the hull of the sources to the hull of the destinations. If none does, none passes
/// between the ranges themselves.
pub(crate) fn passes_in_hulls<Q: Question>(
    alloc: Global,
    question: &Q,
    from: &[AddressRange],
    to: &[AddressRange],
) -> Result<bool, AllocError>
    requires from { All IsRange from.now }
    requires to { All IsRange to.now }
    ensures { IfOk result (λ some. PassesSome (Q.holds_of question.now) (GoesBetween from.now to.now) → IsTrue some) }
{
    let area = Area {
        from: hull(from),
        to: hull(to),
    };
    passes_in(alloc, question, area)
}

/// Whether some packet of the area passes.
fn passes_in<Q: Question>(alloc: Global, question: &Q, area: Area) -> Result<bool, AllocError>
    requires { IsArea area }
    ensures { IfOk result (λ some. IsTrue some ↔ PassesSome (Q.holds_of question.now) (IsPacketIn area)) }
{
    let found = least_where(alloc, question, box_between(area.from, area.to))?;
    Ok(found.is_some())
}

/// Returns a range that contains all of the ranges.
pub fn hull(ranges: &[AddressRange]) -> AddressRange
    requires { All IsRange ranges.now }
    ensures range { IsRange result }
    ensures covers { (a : ℕ) → LiesInOne ranges.now a → LiesIn result a }
{
    match ranges.first() {
        None => every_address(),
        Some(first) => hull_from(*first, ranges),
    }
}

/// Returns a range that contains the first range and all of the others.
fn hull_from(first: AddressRange, ranges: &[AddressRange]) -> AddressRange
    requires { IsRange first }
    ensures range { IsRange result }
    ensures covers { (a : ℕ) → LiesInOne ranges.now a → LiesIn result a }
{
    let mut hull = first;
    for range in ranges {
        hull = joined(hull, *range);
    }
    hull
}

/// Returns the least range that contains both.
fn joined(left: AddressRange, right: AddressRange) -> AddressRange
    requires { IsRange left }
    ensures range { IsRange result }
    ensures left { (a : ℕ) → LiesIn left a → LiesIn result a }
    ensures right { (a : ℕ) → LiesIn right a → LiesIn result a }
{
    AddressRange {
        first: left.first.min(right.first),
        last: left.last.max(right.last),
    }
}

/// Returns the range of all addresses.
pub(crate) fn every_address() -> AddressRange
    ensures { result ≡ every_address }
{
    AddressRange {
        first: 0,
        last: u32::MAX,
    }
}
