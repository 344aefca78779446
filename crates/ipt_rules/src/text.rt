//! Writes the text of a rule set line by line into a buffer, without allocation.

ghost use Rattle.std.specs.Prelude.{◌≡◌, ◌<◌, ◌≤◌, ◌++◌, ◌∷◌, [], length, take, slice_get, IsNone, IsTrue, Some};
ghost use Rattle.std.specs.List.{flat_map};
ghost use Rattle.ipt_rules.specs.inner.Build.{refusal_of};
ghost use Rattle.ipt_rules.specs.Loops.{IsAcyclic};
ghost use Rattle.ipt_rules.specs.inner.OneOutcome.{AreDeterministic};
ghost use Rattle.ipt_rules.specs.inner.Jumps.{JumpsIn, JumpsAreKnown};
ghost use Rattle.ipt_rules.specs.ChainTable.{rule_count};
ghost use Rattle.ipt_rules.specs.inner.ChainTable.{IsTable};
ghost use Rattle.ipt_rules.specs.inner.RuleParts.{AreRules, is_rule};
ghost use Rattle.ipt_rules.specs.inner.Starts.{starts_from};
ghost use Rattle.ipt_rules.specs.inner.Writable.{IsWritable};
ghost use Rattle.ipt_rules.specs.Text.{text_lines, table_line, commit_line, chain_line, rule_line, rule_lines};

use crate::chain::Chain;
use crate::pieces::{put_address_part, put_policy, put_state_part, put_target};
use crate::rule::Rule;
use crate::ruleset::Ruleset;
use crate::services::put_service;
use crate::starts::chain_at;
use std::cell::Cell;
use text_core::put;

impl Ruleset {
    /// Returns the number of lines of the text.
    pub fn lines(&self) -> u32
        ensures count { result ≡ length (text_lines self.now) }

        // The names of the chains are distinct, and each jump has the name of its chain.
        ensures table { IsTable self.now }
        ensures accepted { IsNone (refusal_of self.now) }

        // No chain is on a cycle, and each chain has exactly one outcome for every packet.
        ensures acyclic { IsAcyclic self.now }
        ensures deterministic { AreDeterministic self.now }

        // The text can be read back.
        ensures writable { IsWritable self.now }
    {
        self.chains.len() as u32 + self.rules + 2
    }

    /// Writes line `i` of the text, from 0, with its newline to the start of the buffer, and returns its
    /// length. The content of the buffer after the line is unspecified.
    pub fn write_line(&self, i: u32, buffer: &mut [u8; 320]) -> usize
        requires { i < length (text_lines self.now) }
        ensures line { slice_get (text_lines self.now) i ≡ Some (take result buffer.new) }
        ensures short { result ≤ 283 }
    {
        if i == 0 {
            return write_table_line(buffer);
        }
        let place = i as usize - 1;
        let chains = self.chains.as_slice();
        if place < chains.len() {
            return write_chain_line(&chains[place], buffer);
        }
        let number = place - chains.len();
        write_rule_or_commit(chains, &self.starts, &self.found_last, number, buffer)
    }
}

fn write_table_line(buffer: &mut [u8; 320]) -> usize
    ensures line { take result buffer.new ≡ table_line }
    ensures short { result ≤ 283 }
{
    put(buffer, 0, b"*filter\n")
}

fn write_chain_line(chain: &Chain, buffer: &mut [u8; 320]) -> usize
    ensures line { take result buffer.new ≡ chain_line chain.now }
    ensures short { result ≤ 283 }
{
    let colon = put(buffer, 0, b":");
    let name = put(buffer, colon, chain.name());
    let blank = put(buffer, name, b" ");
    let policy = put_policy(buffer, blank, chain.policy());
    put(buffer, policy, b" [0:0]\n")
}

/// Writes the line of the rule with this number among the rules of all chains, or the last line if the number
/// is the number of rules.
fn write_rule_or_commit(
    chains: &[Chain],
    starts: &[u32],
    found_last: &Cell<usize>,
    number: usize,
    buffer: &mut [u8; 320],
) -> usize
    requires starts { starts.now ≡ starts_from 0 chains.now }
    requires some { 0 < length chains.now }
    requires few { length chains.now ≤ 4096 }
    requires jumps { JumpsAreKnown chains.now }
    requires parts { AreRules chains.now }
    requires there { number ≤ rule_count chains.now }
    ensures line { slice_get (flat_map (rule_lines chains.now) chains.now ++ commit_line ∷ []) number ≡ Some (take result buffer.new) }
    ensures short { result ≤ 283 }
{
    let place = chain_at(starts, found_last, number);
    let chain = &chains[place];
    let rules = chain.rules();
    let left = number - starts[place] as usize;
    if left < rules.len() {
        return write_rule_line(chains, chain.name(), &rules[left], buffer);
    }
    write_commit_line(buffer)
}

fn write_commit_line(buffer: &mut [u8; 320]) -> usize
    ensures line { take result buffer.new ≡ commit_line }
    ensures short { result ≤ 283 }
{
    put(buffer, 0, b"COMMIT\n")
}

fn write_rule_line(chains: &[Chain], name: &[u8], rule: &Rule, buffer: &mut [u8; 320]) -> usize
    requires jump { JumpsIn (length chains.now) rule.now.target }
    requires name { length name.now ≤ 64 }
    requires parts { IsTrue (is_rule rule.now) }
    ensures line { take result buffer.new ≡ rule_line chains.now name.now rule.now }
    ensures short { result ≤ 283 }
{
    let command = put(buffer, 0, b"-A ");
    let chain = put(buffer, command, name);
    let src = put_address_part(buffer, chain, b" -s ", rule.src);
    let dst = put_address_part(buffer, src, b" -d ", rule.dst);
    let service = put_service(buffer, dst, rule);
    let state = put_state_part(buffer, service, rule.state);
    put_target(buffer, state, chains, rule.target)
}
