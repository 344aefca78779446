//! The answer of `why` as JSON.

ghost use Rattle.std.specs.Prelude.{◌≡◌, ◌++◌, All, IfOk, OnOk};
ghost use Rattle.json_core.specs.Json.{array_json};
ghost use Rattle.why_json.specs.WhyJson.{reason_json, why_json};
ghost use Rattle.why_json.specs.inner.Fitting.{FitsExplanation, FitsReason};

use crate::explanation::Explanation;
use crate::invariants::push_invariant_at;
use crate::standing::push_standing;
use explain_core::Reason;
use json_core::{ItemWriter, push, push_array, push_flows};
use net_core::Description;
use std::alloc::{AllocError, Global};

/// Returns the explanation as one object on one line.
pub fn why_json(
    alloc: Global,
    description: &Description,
    explanation: &Explanation,
) -> Result<Vec<u8>, AllocError>
    requires { FitsExplanation description.now explanation.now }
    ensures { IfOk result (λ text. text.items ≡ why_json description.now explanation.now) }
{
    let mut text = Vec::new(alloc);
    push_explanation(&mut text, description, explanation)?;
    Ok(text)
}

fn push_explanation(
    text: &mut Vec<u8>,
    description: &Description,
    explanation: &Explanation,
) -> Result<(), AllocError>
    requires { FitsExplanation description.now explanation.now }
    ensures { OnOk result (text.new.items ≡ text.old.items ++ why_json description.now explanation.now) }
{
    push(text, b"{\"version\":1,")?;
    push_standing(text, description, explanation.standing)?;
    push(text, b",\"denied_by\":")?;
    push_reasons(text, description, &explanation.denied_by)?;
    push(text, b",\"answers_denied_by\":")?;
    push_reasons(text, description, &explanation.answers_denied_by)?;
    push(text, b"}\n")
}

fn push_reasons(
    text: &mut Vec<u8>,
    description: &Description,
    reasons: &[Reason],
) -> Result<(), AllocError>
    requires { All (FitsReason description.now) reasons.now }
    ensures { OnOk result (text.new.items ≡ text.old.items ++ array_json (reason_json description.now) reasons.now) }
{
    push_array(text, &ReasonWriter { description }, reasons)
}

// The writer of reasons.
#[derive(Drop)]
struct ReasonWriter<'a> {
    description: &'a Description,
}

impl<'a> ItemWriter<Reason> for ReasonWriter<'a> {
    ghost use Rattle.why_json.specs.WhyJson.{reason_json};
    ghost use Rattle.why_json.specs.inner.Fitting.{FitsReason};

    ghost fits = { λ w reason. FitsReason w.description.now reason };

    ghost item_json = { λ w reason. reason_json w.description.now reason };

    fn push(&self, text: &mut Vec<u8>, item: &Reason) -> Result<(), AllocError> {
        push_reason(text, self.description, item)
    }
}

fn push_reason(
    text: &mut Vec<u8>,
    description: &Description,
    reason: &Reason,
) -> Result<(), AllocError>
    requires { FitsReason description.now reason.now }
    ensures { OnOk result (text.new.items ≡ text.old.items ++ reason_json description.now reason.now) }
{
    push_invariant_at(text, description, reason.number)?;
    push(text, b",\"flows\":")?;
    push_flows(text, description.hosts(), &reason.by)?;
    push(text, b"}")
}
