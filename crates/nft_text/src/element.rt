//! Verdicts, and the elements of verdict maps.

ghost use Rattle.std.specs.Prelude.{◌≡◌, ◌≤◌, ◌++◌, codes, take};
ghost use Rattle.text_core.specs.inner.Line.{cut};
ghost use Rattle.nft_text.specs.Text.{after_element, element_text, name_of, verdict_text};
ghost use Rattle.nft_text.specs.inner.Places.{AreShort};

use crate::address::put_range;
use nft_rules::{Chain, Element, Verdict};
use text_core::put;

/// Writes an element and what follows it to the start of the buffer, and returns the length.
pub(crate) fn write_element(
    chains: &[Chain],
    element: Element,
    behind: &[Element],
    buffer: &mut [u8; 256],
) -> usize
    requires { AreShort chains.now }
    ensures text { take result buffer.new ≡ element_text chains.now element behind.now }
    ensures within { result ≤ 256 }
{
    let range = put_range(buffer, 0, element.range);
    let colon = put(buffer, range, b" : ");
    let verdict = put_verdict(chains, element.verdict, buffer, colon);
    put(buffer, verdict, after_element(behind))
}

/// Returns what follows an element.
fn after_element(behind: &[Element]) -> &'static [u8]
    ensures { result.now ≡ after_element behind.now }
{
    match behind {
        [] => b" }\n",
        _ => b", ",
    }
}

/// Writes a verdict after the first `at` bytes, and returns the end of the text.
pub(crate) fn put_verdict(
    chains: &[Chain],
    verdict: Verdict,
    buffer: &mut [u8; 256],
    at: usize,
) -> usize
    requires { at ≤ 256 }
    ensures text { take result buffer.new ≡ cut 256 (take at buffer.old ++ verdict_text chains.now verdict) }
    ensures within { result ≤ 256 }
{
    match verdict {
        Verdict::Accept => put(buffer, at, b"accept"),
        Verdict::Drop => put(buffer, at, b"drop"),
        Verdict::Goto(chain) => put_goto(chains, chain, buffer, at),
    }
}

fn put_goto(chains: &[Chain], chain: u32, buffer: &mut [u8; 256], at: usize) -> usize
    requires { at ≤ 256 }
    ensures text { take result buffer.new ≡ cut 256 (take at buffer.old ++ (codes "goto " ++ name_of chains.now chain)) }
    ensures within { result ≤ 256 }
{
    let goto = put(buffer, at, b"goto ");
    put(buffer, goto, chain_name(chains, chain))
}

/// Returns the name of the chain with this index.
fn chain_name(chains: &[Chain], chain: u32) -> &[u8]
    ensures { result.now ≡ name_of chains.now chain }
{
    match chains.get(chain as usize) {
        Some(chain) => &chain.name,
        None => &[],
    }
}
