//! Writers of the options of a rule line: addresses, states and targets. Each appends to the content of the
//! buffer.

ghost use Rattle.std.specs.Prelude.{◌≡◌, ◌<◌, ◌≤◌, ◌++◌, length, take};
ghost use Rattle.text_core.specs.inner.Line.{cut};
ghost use Rattle.ipt_rules.specs.inner.Jumps.{JumpsIn};
ghost use Rattle.ipt_rules.specs.Chain.{name_of};
ghost use Rattle.ipt_rules.specs.Text.{newline, negation_text, address_text, state_text, states_text, target_text, policy_text};

use crate::chain::Chain;
use crate::rule::{AddrMatch, Policy, StateMatch, Target};
use host_net::put_prefix;
use text_core::put;

#[tactic(auto, using(text_core::proofs::LineLaws::nothing_put))]
pub(crate) fn put_negation(buffer: &mut [u8; 320], at: usize, negated: bool) -> usize
    requires { at ≤ 320 }
    ensures text { take result buffer.new ≡ cut 320 (take at buffer.old ++ negation_text negated) }
    ensures within { result ≤ 320 }
{
    if negated { put(buffer, at, b" !") } else { at }
}

#[inline(always)]
#[tactic(auto, using(text_core::proofs::LineLaws::nothing_put))]
pub(crate) fn put_address_part(
    buffer: &mut [u8; 320],
    at: usize,
    option: &[u8],
    part: Option<AddrMatch>,
) -> usize
    requires { at ≤ 320 }
    ensures text { take result buffer.new ≡ cut 320 (take at buffer.old ++ address_text option.now part) }
    ensures within { result ≤ 320 }
{
    match part {
        None => at,
        Some(asked) => {
            let mark = put_negation(buffer, at, asked.negated);
            let option = put(buffer, mark, option);
            put_prefix(buffer, option, asked.prefix)
        }
    }
}

#[tactic(auto, using(text_core::proofs::LineLaws::nothing_put))]
pub(crate) fn put_state_part(buffer: &mut [u8; 320], at: usize, part: Option<StateMatch>) -> usize
    requires { at ≤ 320 }
    ensures text { take result buffer.new ≡ cut 320 (take at buffer.old ++ state_text part) }
    ensures within { result ≤ 320 }
{
    match part {
        None => at,
        Some(asked) => {
            let module = put(buffer, at, b" -m conntrack");
            let mark = put_negation(buffer, module, asked.negated);
            let option = put(buffer, mark, b" --ctstate ");
            put_states(buffer, option, asked.new, asked.established)
        }
    }
}

fn put_states(buffer: &mut [u8; 320], at: usize, new: bool, established: bool) -> usize
    requires { at ≤ 320 }
    ensures text { take result buffer.new ≡ cut 320 (take at buffer.old ++ states_text new established) }
    ensures within { result ≤ 320 }
{
    match (new, established) {
        (true, true) => put(buffer, at, b"NEW,ESTABLISHED"),
        (true, false) => put(buffer, at, b"NEW"),
        (false, true) => put(buffer, at, b"ESTABLISHED"),
        (false, false) => put(buffer, at, b"INVALID"),
    }
}

/// Appends the target of a rule and ends its line.
pub(crate) fn put_target(
    buffer: &mut [u8; 320],
    at: usize,
    chains: &[Chain],
    target: Target,
) -> usize
    requires fits { at ≤ 320 }
    requires there { JumpsIn (length chains.now) target }
    ensures text { take result buffer.new ≡ cut 320 (take at buffer.old ++ (target_text chains.now target ++ newline)) }
    ensures within { result ≤ 320 }
    ensures short { length (target_text chains.now target) ≤ 68 }
{
    match target {
        Target::Accept => put(buffer, at, b" -j ACCEPT\n"),
        Target::Drop => put(buffer, at, b" -j DROP\n"),
        Target::Reject => put(buffer, at, b" -j REJECT\n"),
        Target::Return => put(buffer, at, b" -j RETURN\n"),
        Target::Count => put(buffer, at, b"\n"),
        Target::Jump(chain) => {
            let option = put(buffer, at, b" -j ");
            let name = put(buffer, option, name_of(chains, chain));
            put(buffer, name, b"\n")
        }
    }
}

#[tactic(auto, using(crate::proofs::ChainLemmas::name_of_read))]
fn name_of(chains: &[Chain], number: u16) -> &[u8]
    requires { number < length chains.now }
    ensures value { result.now ≡ name_of chains.now number }
    ensures short { length (name_of chains.now number) ≤ 64 }
{
    chains[number as usize].name()
}

pub(crate) fn put_policy(buffer: &mut [u8; 320], at: usize, policy: Option<Policy>) -> usize
    requires { at ≤ 320 }
    ensures text { take result buffer.new ≡ cut 320 (take at buffer.old ++ policy_text policy) }
    ensures within { result ≤ 320 }
{
    match policy {
        None => put(buffer, at, b"-"),
        Some(Policy::Accept) => put(buffer, at, b"ACCEPT"),
        Some(Policy::Drop) => put(buffer, at, b"DROP"),
    }
}
