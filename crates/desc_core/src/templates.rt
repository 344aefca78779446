//! The refusals for the templates that a description declares.
ghost use Rattle.std.specs.Prelude.{◌≡◌, ◌&&◌, map};
ghost use Rattle.std.specs.List.{list_all, list_any};
ghost use Rattle.std.specs.Str.{bytes_eq};
ghost use Rattle.desc_core.specs.TemplateConditions.{are_different, bad_template, denies, has_kinds, has_own_name, has_partner, has_strategy, is_well_formed, not_lawful, template_conditions, unlawful_at, uses_kinds};
ghost use Rattle.desc_form.specs.inner.RawView.{pair_view, template_view, raw_view};
ghost use Rattle.text_core.specs.FirstMatch.{first_of};
ghost use Rattle.text_core.specs.Name.{is_name};

use attr_core::Template;
use desc_form::{Place, RawDescription, RawPair, RawTemplate, Refusal, Why};
use table_core::is_one_of;
use text_core::is_name;

/// The greatest number of kinds of a template.
const KIND_LIMIT: usize = 64;

/// Returns the refusal of a template that is invalid, or that denies a pair without its partner.
pub(crate) fn template_refusal(written: &RawDescription<'_>) -> Option<Refusal>
    ensures { result ≡ first_of (template_conditions (raw_view written.now).templates) }
{
    let bad = bad_template(&written.templates);
    if bad.is_some() {
        return bad;
    }
    not_lawful(&written.templates)
}

/// Returns the refusal of a template that is invalid after the templates before it.
fn bad_template(templates: &[RawTemplate<'_>]) -> Option<Refusal>
    ensures { result ≡ bad_template (map template_view templates.now) }
{
    for (index, template) in templates.iter().enumerate() {
        if !is_well_formed(&templates[..index], template) {
            let place = Place::Template(index as u64 + 1);
            return Some(Refusal::at(Why::BadTemplate, place));
        }
    }
    None
}

/// Whether the template is valid, after these earlier ones.
fn is_well_formed(earlier: &[RawTemplate<'_>], template: &RawTemplate<'_>) -> bool
    ensures { result ≡ is_well_formed (map template_view earlier.now) (template_view template.now) }
{
    has_own_name(earlier, template)
        && has_strategy(template)
        && has_kinds(template)
        && uses_kinds(template)
}

/// Whether the name is legal, and differs from the ten templates and from those of earlier
/// templates.
fn has_own_name(earlier: &[RawTemplate<'_>], template: &RawTemplate<'_>) -> bool
    ensures { result ≡ has_own_name (map template_view earlier.now) (template_view template.now) }
{
    is_name(template.name.as_bytes())
        && Template::named(template.name).is_none()
        && !is_declared(earlier, template.name)
}

/// Whether one of the templates has the name.
fn is_declared(templates: &[RawTemplate<'_>], name: &str) -> bool
    ensures { result ≡ list_any (λ t. bytes_eq name.now t.name) (map template_view templates.now) }
{
    for template in templates {
        if name == template.name {
            return true;
        }
    }
    false
}

fn has_strategy(template: &RawTemplate<'_>) -> bool
    ensures { result ≡ has_strategy (template_view template.now) }
{
    template.strategy == "access" || template.strategy == "information"
}

/// Whether there are 1 to 64 kinds, with distinct legal names.
fn has_kinds(template: &RawTemplate<'_>) -> bool
    ensures { result ≡ has_kinds (template_view template.now) }
{
    !template.kinds.is_empty()
        && template.kinds.len() <= KIND_LIMIT
        && are_names(&template.kinds)
        && are_different(&template.kinds)
}

/// Whether each word is a name.
fn are_names(words: &[&str]) -> bool
    ensures { result ≡ list_all is_name (map (λ word. word.now) words.now) }
{
    for word in words {
        if !is_name(word.as_bytes()) {
            return false;
        }
    }
    true
}

/// Whether the words are distinct.
fn are_different(words: &[&str]) -> bool
    ensures { result ≡ are_different (map (λ word. word.now) words.now) }
{
    for (index, word) in words.iter().enumerate() {
        if is_one_of(word, &words[index + 1..]) {
            return false;
        }
    }
    true
}

/// Whether the default and all words of the denied pairs are kinds of the template.
fn uses_kinds(template: &RawTemplate<'_>) -> bool
    ensures { result ≡ uses_kinds (template_view template.now) }
{
    is_one_of(template.default, &template.kinds) && are_of_kinds(&template.kinds, &template.deny)
}

/// Whether all words of the pairs are among the kinds.
fn are_of_kinds(kinds: &[&str], pairs: &[RawPair<'_>]) -> bool
    ensures { result ≡ list_all (λ p. list_any (bytes_eq p.sender) (map (λ kind. kind.now) kinds.now)
        && list_any (bytes_eq p.receiver) (map (λ kind. kind.now) kinds.now)) (map pair_view pairs.now) }
{
    for pair in pairs {
        if !(is_one_of(pair.sender, kinds) && is_one_of(pair.receiver, kinds)) {
            return false;
        }
    }
    true
}

/// Returns the refusal of the first denied pair without a partner, of the first template that has
/// one.
fn not_lawful(templates: &[RawTemplate<'_>]) -> Option<Refusal>
    ensures { result ≡ not_lawful (map template_view templates.now) }
{
    for (index, template) in templates.iter().enumerate() {
        let found = unlawful_at(index as u64 + 1, template);
        if found.is_some() {
            return found;
        }
    }
    None
}

/// Returns the refusal of the first denied pair without a partner, of the template with a number.
fn unlawful_at(number: u64, template: &RawTemplate<'_>) -> Option<Refusal>
    ensures { result ≡ unlawful_at (record { number = number; what = template_view template.now }) }
{
    for (index, pair) in template.deny.iter().enumerate() {
        if !has_partner(template, pair) {
            let refusal = Refusal::at(Why::NotLawful, Place::Template(number));
            return Some(refusal.with_item(index as u64 + 1));
        }
    }
    None
}

/// Whether the pair is also denied with the default at the offending host.
fn has_partner(template: &RawTemplate<'_>, pair: &RawPair<'_>) -> bool
    ensures { result ≡ has_partner (template_view template.now) (pair_view pair.now) }
{
    if template.strategy == "access" {
        denies(template, template.default, pair.receiver)
    } else {
        denies(template, pair.sender, template.default)
    }
}

/// Whether the template denies the pair.
fn denies(template: &RawTemplate<'_>, sender: &str, receiver: &str) -> bool
    ensures { result ≡ denies (template_view template.now) sender.now receiver.now }
{
    lists(&template.deny, sender, receiver)
}

fn lists(pairs: &[RawPair<'_>], sender: &str, receiver: &str) -> bool
    ensures { result ≡ list_any (λ p. bytes_eq p.sender sender.now && bytes_eq p.receiver receiver.now) (map pair_view pairs.now) }
{
    for pair in pairs {
        if pair.sender == sender && pair.receiver == receiver {
            return true;
        }
    }
    false
}
