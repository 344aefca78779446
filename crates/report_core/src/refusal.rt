//! The line of a refusal, written into a buffer without allocation.
ghost use Rattle.std.specs.Prelude.{◌≡◌, ◌≤◌, ◌++◌, ◌+◌, length, take, decimal};
ghost use Rattle.report_core.specs.RefusalLine.{cause_text, if_nonempty, if_nonzero, place_text, refusal_text};
ghost use Rattle.text_core.specs.inner.Line.{cut};

use desc_form::{Place, Refusal, Why};
use host_net::Name;
use text_core::{put, put_number};

/// Writes the line of a refusal, with its newline, to the front of the buffer, and returns its
/// length.
pub fn refusal_line(refusal: &Refusal, buffer: &mut [u8; 256]) -> usize
    ensures line { take result buffer.new ≡ refusal_text refusal.now }
    ensures within { result ≤ 256 }
{
    let head = put(buffer, 0, b"topos: description: ");
    let cause = put_cause(buffer, head, refusal.why);
    let at = put(buffer, cause, b" at ");
    let place = put_place(buffer, at, refusal.place);
    let item = put_if_nonzero(buffer, place, b" item ", refusal.item);
    let other = put_if_nonzero(buffer, item, b", other ", refusal.other);
    let name = put_name(buffer, other, &refusal.name);
    put(buffer, name, b"\n")
}

fn put_cause(buffer: &mut [u8; 256], at: usize, why: Why) -> usize
    requires { at ≤ 256 }
    ensures text { take result buffer.new ≡ cut 256 (take at buffer.old ++ cause_text why) }
    ensures within { result ≤ 256 }
    ensures short { length (cause_text why) ≤ 36 }
{
    let number = put_number(buffer, at, why.number() as u64);
    let blank = put(buffer, number, b" ");
    put(buffer, blank, why.name().as_bytes())
}

#[tactic(auto, unfolding(crate::specs::RefusalLine::place_text))]
fn put_place(buffer: &mut [u8; 256], at: usize, place: Place) -> usize
    requires { at ≤ 256 }
    ensures text { take result buffer.new ≡ cut 256 (take at buffer.old ++ place_text place) }
    ensures within { result ≤ 256 }
    ensures short { length (place_text place) ≤ 58 }
{
    match place {
        Place::Document => put(buffer, at, b"document"),
        Place::Host(host) => put_numbered(buffer, at, b"host ", host),
        Place::Invariant(invariant) => put_numbered(buffer, at, b"invariant ", invariant),
        Place::Assign(invariant, assign) => {
            let invariant = put_numbered(buffer, at, b"invariant ", invariant);
            put_numbered(buffer, invariant, b" assign ", assign)
        }
        Place::FlowAt(flow) => put_numbered(buffer, at, b"flow ", flow),
        Place::Template(template) => put_numbered(buffer, at, b"template ", template),
    }
}

// Appends a number after its word, if it is not 0.
fn put_if_nonzero(buffer: &mut [u8; 256], at: usize, word: &[u8], number: u64) -> usize
    requires { at ≤ 256 }
    ensures text { take result buffer.new ≡ cut 256 (take at buffer.old ++ if_nonzero word.now number) }
    ensures within { result ≤ 256 }
    ensures short { length (if_nonzero word.now number) ≤ length word.now + 20 }
{
    if number == 0 {
        at
    } else {
        put_numbered(buffer, at, word, number)
    }
}

// Appends a name after a colon, if it is not empty.
fn put_name(buffer: &mut [u8; 256], at: usize, name: &Name) -> usize
    requires { at ≤ 256 }
    ensures text { take result buffer.new ≡ cut 256 (take at buffer.old ++ if_nonempty name.now) }
    ensures within { result ≤ 256 }
    ensures short { length (if_nonempty name.now) ≤ 34 }
{
    let bytes = name.bytes();
    if bytes.is_empty() {
        at
    } else {
        let colon = put(buffer, at, b": ");
        put(buffer, colon, bytes)
    }
}

fn put_numbered(buffer: &mut [u8; 256], at: usize, word: &[u8], number: u64) -> usize
    requires { at ≤ 256 }
    ensures text { take result buffer.new ≡ cut 256 (take at buffer.old ++ (word.now ++ decimal number)) }
    ensures within { result ≤ 256 }
    ensures short { length (word.now ++ decimal number) ≤ length word.now + 20 }
{
    let word = put(buffer, at, word);
    put_number(buffer, word, number)
}
