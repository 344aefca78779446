//! The places whose spans have rules of a list.

ghost use Rattle.std.specs.Prelude.{◌≡◌, IfOk};
ghost use Rattle.pass_core.specs.Dead.{AreAscending};
ghost use Rattle.nft_flows.specs.inner.Selected.{has_all, has_one, selected};

use crate::place::TablePlace;
use crate::search::is_among;
use crate::span::Span;
use ipt_rules::Place;
use std::alloc::{AllocError, Global};

/// Returns the places of which at least one rule is listed.
pub(crate) fn with_one(
    alloc: Global,
    spans: &[Span],
    rules: &[Place],
) -> Result<Vec<TablePlace>, AllocError>
    ensures { IfOk result (λ places. places.items ≡ selected (has_one rules.now) spans.now) }
{
    spans
        .iter()
        .filter(|span| has_one(rules, span))
        .map(|span| span.place)
        .collect(alloc)
}

/// Returns the places of which all rules are listed.
pub(crate) fn with_all(
    alloc: Global,
    spans: &[Span],
    rules: &[Place],
) -> Result<Vec<TablePlace>, AllocError>
    requires { AreAscending rules.now }
    ensures { IfOk result (λ places. places.items ≡ selected (has_all rules.now) spans.now) }
{
    let mut places = Vec::new(alloc);
    for span in spans {
        if has_all(rules, span) {
            places.push(span.place)?;
        }
    }
    Ok(places)
}

/// Whether a rule of the span is listed.
fn has_one(rules: &[Place], span: &Span) -> bool
    ensures { result ≡ has_one rules.now span.now }
{
    rules.iter().any(|rule| span.contains(*rule))
}

/// Whether all rules of the span are listed.
fn has_all(rules: &[Place], span: &Span) -> bool
    requires { AreAscending rules.now }
    ensures { result ≡ has_all rules.now span.now }
{
    for rule in span.first..span.end {
        let place = Place {
            chain: span.chain,
            rule,
        };
        if !is_among(rules, place) {
            return false;
        }
    }
    true
}
