//! Well-formedness of a description: the refusals for keys and for types of values.
ghost use Rattle.std.specs.Prelude.{◌≡◌, ◌↔◌, None, option_map};
ghost use Rattle.text_core.specs.FirstMatch.{first_of};
ghost use Rattle.desc_form.specs.Refusals.{refused};
ghost use Rattle.desc_form.specs.FormConditions.{form_conditions};
ghost use Rattle.desc_form.specs.inner.RawForm.{IsFormed};
ghost use Rattle.toml.specs.View.{table_view};

use crate::places::Found;
use crate::refusal::{Place, Refusal, Why};
use toml::Table;

/// Returns the reason why the description is not well formed: an unknown key anywhere takes
/// precedence over a missing key anywhere, and that over a value of a wrong type.
pub fn form_refusal(document: &Table) -> Option<Refusal>
    ensures first { result ≡ first_of (form_conditions (table_view document.now)) }
    ensures formed { (result ≡ None) ↔ IsFormed (table_view document.now) }
{
    first_refusal(document)
}

#[tactic(auto, unfolding(crate::specs::FormConditions::form_conditions), using(crate::proofs::FoundLaws::refused_first))]
fn first_refusal(document: &Table) -> Option<Refusal>
    ensures { result ≡ first_of (form_conditions (table_view document.now)) }
{
    let found = Found::of(document);
    refusal_at(Why::UnknownKey, found.unknown)
        .or(refusal_at(Why::MissingKey, found.missing))
        .or(refusal_at(Why::WrongType, found.wrong))
}

/// Returns the refusal of a place, if there is one.
fn refusal_at(why: Why, place: Option<Place>) -> Option<Refusal>
    ensures { result ≡ option_map (refused why) place }
{
    Some(Refusal::at(why, place?))
}
