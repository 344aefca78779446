//! Whether tokens contain a negated match on all ports.

ghost use Rattle.std.specs.Prelude.{◌≡◌, []};
ghost use Rattle.text_core.specs.Lines.{words};
ghost use Rattle.ipt_plain.specs.inner.LineSteps.{is_bang, is_port_option, is_all_ports, is_negated_match, negates_all_ports};

use text_core::Words;

pub(crate) fn negates_all_ports(line: &[u8]) -> bool
    ensures { result ≡ negates_all_ports [] [] (words line.now) }
{
    let mut words = Words::new(line);
    let mut earlier: &[u8] = &[];
    let mut last: &[u8] = &[];
    while let Some(word) = words.next_word() {
        if is_negated_match(earlier, last, word) {
            return true;
        }
        earlier = last;
        last = word;
    }
    false
}

fn is_negated_match(bang: &[u8], option: &[u8], ports: &[u8]) -> bool
    ensures { result ≡ is_negated_match bang.now option.now ports.now }
{
    is_bang(bang) && is_port_option(option) && is_all_ports(ports)
}

#[tactic(auto, unfolding(crate::specs::inner::LineSteps::is_bang))]
fn is_bang(word: &[u8]) -> bool
    ensures { result ≡ is_bang word.now }
{
    word == b"!".as_slice()
}

#[tactic(auto, unfolding(crate::specs::inner::LineSteps::is_port_option))]
fn is_port_option(word: &[u8]) -> bool
    ensures { result ≡ is_port_option word.now }
{
    word == b"--sport".as_slice() || word == b"--dport".as_slice()
}

#[tactic(auto, unfolding(crate::specs::inner::LineSteps::is_all_ports))]
fn is_all_ports(word: &[u8]) -> bool
    ensures { result ≡ is_all_ports word.now }
{
    word == b"0:65535".as_slice() || word == b"0:".as_slice() || word == b":65535".as_slice()
}
