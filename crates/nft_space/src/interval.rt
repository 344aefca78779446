//! The search in a verdict map: intervals of addresses for which the map has one verdict.

ghost use Rattle.std.specs.Prelude.{◌≡◌, ◌≤◌, ◌<◌, ℕ, IfSome, Some, slice_get};
ghost use Rattle.header_space.specs.Owners.{LiesIn};
ghost use Rattle.nft_rules.specs.declared.table.Element.{Element};
ghost use Rattle.nft_rules.specs.Loadable.{AscendFrom};
ghost use Rattle.nft_rules.specs.Maps.{Leads};

use header_space::AddressRange;
use nft_rules::{Element, Verdict};

/// Addresses for which a verdict map has the same verdict, or no verdict.
#[derive(Clone, Copy)]
pub(crate) struct Interval {
    pub range: AddressRange,
    pub verdict: Option<Verdict>,
}

/// Returns an interval that contains the address.
pub(crate) fn interval_at(elements: &[Element], address: u32) -> Interval
    requires { AscendFrom 0 elements.now }
    ensures inside { LiesIn result.range address }
    ensures leads { (a : ℕ) → LiesIn result.range a → Leads elements.now a result.verdict }
{
    match element_at(elements, ended(elements, address)) {
        Some(element) if element.range.first <= address => Interval {
            range: element.range,
            verdict: Some(element.verdict),
        },
        Some(element) => Interval {
            range: AddressRange {
                first: address,
                last: element.range.first - 1,
            },
            verdict: None,
        },
        None => Interval {
            range: AddressRange {
                first: address,
                last: u32::MAX,
            },
            verdict: None,
        },
    }
}

fn element_at(elements: &[Element], place: usize) -> Option<Element>
    ensures { result ≡ slice_get elements.now place }
{
    elements.get(place).copied()
}

/// Returns the number of elements that end before the address.
fn ended(elements: &[Element], address: u32) -> usize
    requires { AscendFrom 0 elements.now }
    ensures before { (k : ℕ) (e : Element) → k < result → slice_get elements.now k ≡ Some e → e.range.last < address }
    ensures next { IfSome (slice_get elements.now result) (λ e. address ≤ e.range.last) }
{
    elements.partition_point(|element| element.range.last < address)
}
