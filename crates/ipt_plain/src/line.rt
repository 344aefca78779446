//! The reason why `iptables-restore` may read one line otherwise.

ghost use Rattle.std.specs.Prelude.{◌≡◌};
ghost use Rattle.ipt_plain.specs.inner.LineSteps.{has_zero, is_forward, line_fault, rule_fault};

use crate::arguments::has_arguments;
use crate::fault::PlainWhy;
use crate::ports::negates_all_ports;
use text_core::{Words, is_comment};

/// The greatest length of a line that `iptables-restore` reads as one line.
const LINE_LIMIT: usize = 10_239;

#[tactic(auto, unfolding(crate::specs::inner::LineSteps::line_fault))]
pub(crate) fn line_fault(line: &[u8]) -> Option<PlainWhy>
    ensures { result ≡ line_fault line.now }
{
    if line.len() > LINE_LIMIT {
        return Some(PlainWhy::LongLine);
    }
    if has_zero(line) {
        return Some(PlainWhy::ZeroByte);
    }
    if is_comment(line) {
        return None;
    }
    rule_fault(line)
}

fn rule_fault(line: &[u8]) -> Option<PlainWhy>
    ensures { result ≡ rule_fault line.now }
{
    if !has_arguments(line) {
        return Some(PlainWhy::InnerQuote);
    }
    if negates_all_ports(line) {
        return Some(PlainWhy::AllPorts);
    }
    None
}

fn has_zero(line: &[u8]) -> bool
    ensures { result ≡ has_zero line.now }
{
    line.contains(&0)
}

#[tactic(auto, unfolding(crate::specs::inner::LineSteps::is_forward))]
pub(crate) fn is_forward(line: &[u8]) -> bool
    ensures { result ≡ is_forward line.now }
{
    match Words::new(line).next_word() {
        Some(word) => word == b":FORWARD".as_slice(),
        None => false,
    }
}
