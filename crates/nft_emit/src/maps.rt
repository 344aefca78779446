//! The rules that find a verdict by the host that owns an address: verdict maps, and after them the
//! verdict on the rest host.

ghost use Rattle.std.specs.Prelude.{◌≡◌, ◌++◌, ◌∷◌, [], not, length, IfOk, OnOk};
ghost use Rattle.std.specs.List.{filter, flat_map};
ghost use Rattle.nft_emit.specs.inner.Falls.{Falls, are_apart, element_if, element_of, is_apart, is_single, map_rules, shown, verdict_at, verdict_of, verdict_rules};

use crate::cuts::Cut;
use nft_rules::{Element, End, MatchRule, Rule, Verdict, VerdictMap};
use std::alloc::{AllocError, Global};

/// The least number of single addresses that have a map of their own. If there are fewer, and many
/// intervals, a second lookup costs more than the smaller tree saves.
const OWN_MAP_MINIMUM: usize = 32;

/// The elements of a map of single addresses, and the other elements.
#[derive(Drop)]
struct Parts {
    singles: Vec<Element>,
    others: Vec<Element>,
}

/// Returns the rules with these verdicts, one for each host. No verdict means that no packet of the
/// host passes. The kernel has a hash table for a map without intervals, and a tree for others.
pub fn fall_rules(
    alloc: Global,
    end: End,
    cuts: &[Cut],
    verdicts: &[Option<Verdict>],
    rest: Option<u16>,
) -> Result<Vec<Rule>, AllocError>
    ensures { IfOk result (λ rules. Falls end cuts.now verdicts.now rest rules.items) }
{
    let after = verdict_of(verdicts, rest);
    let elements = elements_of(alloc, cuts, verdicts, after)?;
    let Parts { singles, others } = parts_of(alloc, &elements)?;
    let mut rules = Vec::new(alloc);
    push_map(&mut rules, end, singles)?;
    push_map(&mut rules, end, others)?;
    push_verdict(&mut rules, after)?;
    Ok(rules)
}

/// Adds the map of these elements if there are any.
fn push_map(rules: &mut Vec<Rule>, end: End, elements: Vec<Element>) -> Result<(), AllocError>
    ensures { OnOk result (rules.new.items ≡ rules.old.items ++ map_rules (record { end = end; elements = elements }) elements.items) }
{
    if !elements.is_empty() {
        rules.push(Rule::Map(VerdictMap { end, elements }))?;
    }
    Ok(())
}

fn push_verdict(rules: &mut Vec<Rule>, verdict: Option<Verdict>) -> Result<(), AllocError>
    ensures { OnOk result (rules.new.items ≡ rules.old.items ++ verdict_rules verdict) }
{
    if let Some(verdict) = verdict {
        rules.push(Rule::Match(MatchRule {
            established: false,
            service: None,
            verdict,
        }))?;
    }
    Ok(())
}

fn elements_of(
    alloc: Global,
    cuts: &[Cut],
    verdicts: &[Option<Verdict>],
    after: Option<Verdict>,
) -> Result<Vec<Element>, AllocError>
    ensures { IfOk result (λ es. es.items ≡ flat_map (element_of after verdicts.now) cuts.now) }
{
    let mut elements = Vec::new(alloc);
    for cut in cuts {
        push_element(
            &mut elements,
            shown(after, verdict_at(verdicts, cut.host)),
            *cut,
        )?;
    }
    Ok(elements)
}

fn push_element(
    elements: &mut Vec<Element>,
    verdict: Option<Verdict>,
    cut: Cut,
) -> Result<(), AllocError>
    ensures { OnOk result (elements.new.items ≡ elements.old.items ++ element_if cut.range verdict) }
{
    if let Some(verdict) = verdict {
        elements.push(Element {
            range: cut.range,
            verdict,
        })?;
    }
    Ok(())
}

/// Returns the single addresses apart from the other elements, if there are many.
fn parts_of(alloc: Global, elements: &[Element]) -> Result<Parts, AllocError>
    ensures singles { IfOk result (λ parts. parts.singles.items ≡ filter (is_apart (are_apart elements.now)) elements.now) }
    ensures others { IfOk result (λ parts. parts.others.items ≡ filter (λ e. not (is_apart (are_apart elements.now) e)) elements.now) }
{
    let apart = are_apart(elements);
    let mut parts = Parts {
        singles: Vec::new(alloc),
        others: Vec::new(alloc),
    };
    for element in elements {
        push_part(&mut parts, apart && is_single(*element), *element)?;
    }
    Ok(parts)
}

fn push_part(parts: &mut Parts, single: bool, element: Element) -> Result<(), AllocError>
    ensures singles { OnOk result (parts.new.singles.items ≡ parts.old.singles.items ++ filter (λ e. single) (element ∷ [])) }
    ensures others { OnOk result (parts.new.others.items ≡ parts.old.others.items ++ filter (λ e. not single) (element ∷ [])) }
{
    if single {
        parts.singles.push(element)?;
    } else {
        parts.others.push(element)?;
    }
    Ok(())
}

/// Whether single addresses have a map of their own.
fn are_apart(elements: &[Element]) -> bool
    ensures { result ≡ are_apart elements.now }
{
    count_singles(elements) >= OWN_MAP_MINIMUM
}

fn count_singles(elements: &[Element]) -> usize
    ensures { result ≡ length (filter is_single elements.now) }
{
    elements
        .iter()
        .filter(|element| is_single(**element))
        .count()
}

fn is_single(element: Element) -> bool
    ensures { result ≡ is_single element }
{
    element.range.first == element.range.last
}

/// Returns the verdict of an element. A host without a verdict needs an element that drops only if
/// the rule after the map has a verdict.
fn shown(after: Option<Verdict>, verdict: Option<Verdict>) -> Option<Verdict>
    ensures { result ≡ shown after verdict }
{
    match (verdict, after) {
        (None, Some(_)) => Some(Verdict::Drop),
        _ => verdict,
    }
}

fn verdict_at(verdicts: &[Option<Verdict>], host: u16) -> Option<Verdict>
    ensures { result ≡ verdict_at verdicts.now host }
{
    match verdicts.get(host as usize) {
        Some(verdict) => *verdict,
        None => None,
    }
}

fn verdict_of(verdicts: &[Option<Verdict>], owner: Option<u16>) -> Option<Verdict>
    ensures { result ≡ verdict_of verdicts.now owner }
{
    match owner {
        Some(host) => verdict_at(verdicts, host),
        None => None,
    }
}
