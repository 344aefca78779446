//! Appends invariants to a text.

ghost use Rattle.std.specs.Prelude.{◌≡◌, ◌<◌, ◌++◌, length, OnOk};
ghost use Rattle.why_json.specs.WhyJson.{invariant_at, invariant_json, strategy_text};

use inv_any::AnyInv;
use inv_law::{Invariant, Strategy};
use json_core::{push, push_number, push_string};
use net_core::Description;
use std::alloc::AllocError;

/// Appends the first members of an object, for the invariant with this number.
pub(crate) fn push_invariant_at(
    text: &mut Vec<u8>,
    description: &Description,
    number: u16,
) -> Result<(), AllocError>
    requires { number < length description.now.invariants }
    ensures { OnOk result (text.new.items ≡ text.old.items ++ invariant_at description.now number) }
{
    let invariants = description.invariants();
    let invariant = &invariants[number as usize];
    push_invariant(text, number, invariant)
}

fn push_invariant(text: &mut Vec<u8>, number: u16, invariant: &AnyInv) -> Result<(), AllocError>
    ensures { OnOk result (text.new.items ≡ text.old.items ++ invariant_json number invariant.now) }
{
    push(text, b"{\"invariant\":")?;
    push_number(text, number)?;
    push(text, b",\"template\":")?;
    push_string(text, invariant.template_name().as_bytes())?;
    push(text, b",\"strategy\":")?;
    push_string(text, strategy_text(invariant.strategy()))
}

fn strategy_text(strategy: Strategy) -> &'static [u8]
    ensures { result.now ≡ strategy_text strategy }
{
    match strategy {
        Strategy::Access => b"access",
        Strategy::Information => b"information",
    }
}
