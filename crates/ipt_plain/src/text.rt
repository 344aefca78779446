//! The first line of a text that `iptables-restore` may read otherwise.

ghost use Rattle.std.specs.Prelude.{◌≡◌, ◌+◌, ◌<◌, ◌^◌, length, None, IfNone, IfSome, false};
ghost use Rattle.text_core.specs.Lines.{lines};
ghost use Rattle.ipt_plain.specs.Plain.{IsPlain, HasPlainFault};
ghost use Rattle.ipt_plain.specs.inner.LineSteps.{text_fault};

use crate::fault::{PlainFault, PlainWhy};
use crate::line::{is_forward, line_fault};
use text_core::Lines;

/// Returns the first line that `iptables-restore` may read otherwise than `ipt_read`, and the
/// reason, or `None` if it reads the text in the same way. Needs no memory.
pub fn plain_fault(bytes: &[u8]) -> Option<PlainFault>
    requires { length bytes.now + 1 < 2 ^ 32 }
    ensures plain { IfNone result (IsPlain bytes.now) }
    ensures only { IsPlain bytes.now → result ≡ None }
    ensures fault { IfSome result (λ fault. HasPlainFault bytes.now fault.line fault.why) }
{
    first_fault(bytes)
}

fn first_fault(bytes: &[u8]) -> Option<PlainFault>
    requires { length bytes.now + 1 < 2 ^ 32 }
    ensures { result ≡ text_fault false 1 (lines bytes.now) }
{
    let mut lines = Lines::new(bytes);
    let mut number = 1;
    let mut forward = false;
    while let Some(line) = lines.next_line() {
        if let Some(why) = line_fault(line) {
            return Some(PlainFault { line: number, why });
        }
        forward = forward || is_forward(line);
        number += 1;
    }
    if forward {
        return None;
    }
    Some(PlainFault {
        line: number,
        why: PlainWhy::NoForward,
    })
}
