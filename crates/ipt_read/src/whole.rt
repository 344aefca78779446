//! Parsing a file in iptables-save format as a ruleset.

ghost use Rattle.std.specs.Prelude.{◌≡◌, ◌≤◌, ◌^◌, ◌+◌, ℕ, List, Ok, Err, IfOk, IfErr, MatchResult, length};
ghost use Rattle.text_core.specs.Lines.{lines};
ghost use Rattle.text_core.specs.inner.TextAnswers.{HasCause, IsFault};
ghost use Rattle.text_core.specs.LineFormat.{IsReadToEnd};
ghost use Rattle.ipt_rules.specs.Chain.{Chain};
ghost use Rattle.ipt_rules.specs.inner.OneOutcome.{AreDeterministic};
ghost use Rattle.ipt_rules.specs.Text.{text};
ghost use Rattle.ipt_rules.specs.inner.Writable.{IsWritable};
ghost use Rattle.ipt_read.specs.declared.fault.IptWhy.{IptWhy};
ghost use Rattle.ipt_read.specs.inner.State.{said_of, IsFine};
ghost use Rattle.ipt_read.specs.ParserStates.{After, line_of};
ghost use Rattle.ipt_read.specs.inner.ReaderView.{stage_of};
ghost use Rattle.ipt_read.specs.TextLines.{rules_text, HasFaultInRules, IsReadingOfRules};

use crate::fault::{IptFault, IptWhy};
use crate::reader::{Reader, initial_state};
use crate::stage::Stage;
use ipt_rules::Ruleset;
use std::alloc::Global;
use text_core::{TextFault, read_counted_lines};

/// Parses a ruleset.
pub fn read(alloc: Global, bytes: &[u8]) -> Result<Ruleset, IptFault>
    ensures found { IfOk result (IsReadingOfRules bytes.now) }
    // A file that has a parse result is rejected only if allocation fails.
    ensures only { (chains : List Chain) → IsReadingOfRules bytes.now chains →
        MatchResult result (λ rules. rules ≡ chains) (λ fault. fault ≡ TextFault.Memory) }
    ensures refused { IfErr result (HasCause rules_text bytes.now) }
    // A file has at most one first error, and none if it has a parse result.
    ensures faulty { (line : ℕ) (why : IptWhy) → HasFaultInRules bytes.now line why →
        MatchResult result (λ rules. ⊥) (IsFault line why) }
    // The text of a rule set parses to this rule set, if it is within the size limit.
    ensures written { (chains : List Chain) → IsWritable chains → bytes.now ≡ text chains → length bytes.now ≤ 67108864 →
        IsReadingOfRules bytes.now chains }
    // A formatted rule set is parsed back, if its text is within the size limit.
    ensures again { (chains : List Chain) → IsWritable chains → bytes.now ≡ text chains → length bytes.now ≤ 67108864 →
        MatchResult result (λ rules. rules ≡ chains) (λ fault. fault ≡ TextFault.Memory) }
    // In the returned rule set each chain has one outcome for every packet.
    ensures deterministic { IfOk result AreDeterministic }
{
    let Ok(start) = initial_state(alloc) else {
        return Err(TextFault::Memory);
    };
    match read_counted_lines(start, bytes) {
        Ok((reader, count)) => end(alloc, reader, bytes, count),
        Err(fault) => Err(fault),
    }
}

/// Returns the rule set of a file that was parsed to its last line. `count` is the number of lines.
fn end(alloc: Global, reader: Reader, bytes: &[u8], count: u32) -> Result<Ruleset, IptFault>
    requires fine { IsFine (said_of reader) }
    requires through { IsReadToEnd rules_text bytes.now (said_of reader) }
    requires counted { count ≡ length (lines bytes.now) }
    ensures found { IfOk result (IsReadingOfRules bytes.now) }
    ensures refused { IfErr result (HasCause rules_text bytes.now) }
    ensures deterministic { IfOk result AreDeterministic }
{
    let line = count + 1;
    match reader.stage {
        Stage::After => build(alloc, reader, bytes),
        Stage::Front | Stage::Table => Err(TextFault::Refused {
            line,
            why: IptWhy::NoCommit,
        }),
    }
}

fn build(alloc: Global, reader: Reader, bytes: &[u8]) -> Result<Ruleset, IptFault>
    requires fine { IsFine (said_of reader) }
    requires through { IsReadToEnd rules_text bytes.now (said_of reader) }
    requires whole { stage_of reader.stage ≡ After }
    ensures found { IfOk result (IsReadingOfRules bytes.now) }
    ensures refused { IfErr result (HasCause rules_text bytes.now) }
    ensures deterministic { IfOk result AreDeterministic }
{
    let Ok(found) = reader.chains.first_loop(alloc) else {
        return Err(TextFault::Memory);
    };
    if let Some(chain) = found {
        return Err(TextFault::Refused {
            line: line_of(&reader.declared, chain),
            why: IptWhy::Loop,
        });
    }
    match Ruleset::new(alloc, reader.chains) {
        Ok(rules) => Ok(rules),
        Err(_) => Err(TextFault::Memory),
    }
}

fn line_of(declared: &[u32], chain: u16) -> u32
    ensures { result ≡ line_of declared.now chain }
{
    match declared.get(chain as usize) {
        Some(line) => *line,
        None => 0,
    }
}
