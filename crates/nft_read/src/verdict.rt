//! Verdicts, and the elements of verdict maps.

ghost use Rattle.std.specs.Prelude.{◌≡◌, ◌≤◌, ◌<◌, IfOk, IfSome, length, map};
ghost use Rattle.std.specs.Option.{option_map};
ghost use Rattle.nft_rules.specs.declared.table.Verdict.TheVariants.{Goto};
ghost use Rattle.nft_read.specs.inner.LineSteps.{element_of, element_parts, element_with, elements_of, index_of, pieces, plain_verdict, verdict_of};

use crate::interval::read_exact;
use crate::words::{after, word};
use header_space::AddressRange;
use indexmap::IndexSet;
use nft_rules::{Element, Verdict};
use std::alloc::{AllocError, Global};
use text_core::split_once;

/// Returns the index of a name.
pub(crate) fn index_of(names: &IndexSet<Vec<u8>>, name: &[u8]) -> Option<usize>
    ensures index { result ≡ index_of (map (λ n. n.items) names.now.keys) name.now }
    ensures within { IfSome result (λ i. i < length names.now.keys) }
{
    names.get_index_of(name)
}

/// Parses a verdict, whose `goto` leads to one of the named chains.
pub(crate) fn read_verdict(names: &IndexSet<Vec<u8>>, text: &[u8]) -> Option<Verdict>
    requires { length names.now.keys ≤ 100000 }
    ensures { result ≡ verdict_of (map (λ n. n.items) names.now.keys) text.now }
{
    match after(b"goto ", text) {
        Some(rest) => read_goto(names, word(rest)),
        None => plain_verdict(word(text)),
    }
}

fn read_goto(names: &IndexSet<Vec<u8>>, name: &[u8]) -> Option<Verdict>
    requires { length names.now.keys ≤ 100000 }
    ensures { result ≡ option_map (λ c. Goto c) (index_of (map (λ n. n.items) names.now.keys) name.now) }
{
    match index_of(names, name) {
        Some(chain) => Some(Verdict::Goto(chain as u32)),
        None => None,
    }
}

fn plain_verdict(text: &[u8]) -> Option<Verdict>
    ensures { result ≡ plain_verdict text.now }
{
    if text == b"accept".as_slice() {
        return Some(Verdict::Accept);
    }
    if text == b"drop".as_slice() {
        return Some(Verdict::Drop);
    }
    None
}

/// Parses the elements of a map, which are separated by commas.
pub(crate) fn read_elements(
    alloc: Global,
    names: &IndexSet<Vec<u8>>,
    text: &[u8],
) -> Result<Option<Vec<Element>>, AllocError>
    requires { length names.now.keys ≤ 100000 }
    ensures { IfOk result (λ elements. option_map (λ es. es.items) elements ≡ elements_of (map (λ n. n.items) names.now.keys) (pieces text.now)) }
{
    let mut elements = Vec::new(alloc);
    let mut rest = text;
    while let Some((piece, more)) = split_once(rest, b',') {
        match read_element(names, piece) {
            Some(element) => elements.push(element)?,
            None => return Ok(None),
        }
        rest = more;
    }
    match read_element(names, rest) {
        Some(element) => elements.push(element)?,
        None => return Ok(None),
    }
    Ok(Some(elements))
}

fn read_element(names: &IndexSet<Vec<u8>>, piece: &[u8]) -> Option<Element>
    requires { length names.now.keys ≤ 100000 }
    ensures { result ≡ element_of (map (λ n. n.items) names.now.keys) piece.now }
{
    match after(b" ", piece) {
        None => None,
        Some(text) => match split_once(text, b' ') {
            None => None,
            Some((range, tail)) => read_parts(names, range, tail),
        },
    }
}

fn read_parts(names: &IndexSet<Vec<u8>>, range: &[u8], tail: &[u8]) -> Option<Element>
    requires { length names.now.keys ≤ 100000 }
    ensures { result ≡ element_parts (map (λ n. n.items) names.now.keys) (range.now, tail.now) }
{
    match after(b": ", tail) {
        None => None,
        Some(text) => element_with(read_exact(range), read_verdict(names, text)),
    }
}

fn element_with(range: Option<AddressRange>, verdict: Option<Verdict>) -> Option<Element>
    ensures { result ≡ element_with range verdict }
{
    match (range, verdict) {
        (Some(range), Some(verdict)) => Some(Element { range, verdict }),
        _ => None,
    }
}
