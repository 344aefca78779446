//! The rule of a declared template, with its kinds as numbers.
ghost use Rattle.std.specs.Prelude.{◌≡◌, ◌≤◌, ◌<◌, IfOk, length, replicate};
ghost use Rattle.desc_core.specs.Choices.{number_of_kind, declared_strategy, declared_table};
ghost use Rattle.desc_core.specs.inner.Makeable.{IsMakeable};
ghost use Rattle.desc_form.specs.inner.RawView.{pair_view, template_view};

use attr_core::kind_numbered;
use desc_form::{RawPair, RawTemplate};
use host_net::Name;
use inv_law::Strategy;
use std::alloc::{AllocError, Global};
use tmpl_table::TableRule;

/// Returns the rule of the template for `n` hosts that have its default kind.
pub(crate) fn rule_of(
    alloc: Global,
    n: u16,
    template: &RawTemplate<'_>,
) -> Result<TableRule, AllocError>
    requires { IsMakeable (template_view template.now) }
    ensures { IfOk result (λ rule. rule ≡ record {
      table = declared_table (template_view template.now);
      hosts = replicate n (declared_table (template_view template.now)).default;
    }) }
{
    let denied = denied_pairs(alloc, template)?;
    let name = Name::of(template.name.as_bytes());
    let strategy = declared_strategy(template.strategy);
    let kinds = template.kinds.len() as u8;
    let default = number_of_kind(template, template.default);
    TableRule::of_lawful(alloc, n, name, strategy, kinds, default, &denied)
}

fn declared_strategy(word: &str) -> Strategy
    ensures { result ≡ declared_strategy word.now }
{
    if word == "access" {
        Strategy::Access
    } else {
        Strategy::Information
    }
}

/// Returns the number of a kind of the template, given by its word.
fn number_of_kind(template: &RawTemplate<'_>, word: &str) -> u8
    requires some { 1 ≤ length (template_view template.now).kinds }
    requires few { length (template_view template.now).kinds ≤ 64 }
    ensures value { result ≡ number_of_kind (template_view template.now) word.now }
    ensures within { result < length (template_view template.now).kinds }
{
    match kind_numbered(&template.kinds, word) {
        Some(kind) => kind as u8,
        None => 0,
    }
}

/// Returns the pair of the numbers of two kinds.
fn pair_of(template: &RawTemplate<'_>, pair: &RawPair<'_>) -> (u8, u8)
    requires some { 1 ≤ length (template_view template.now).kinds }
    requires few { length (template_view template.now).kinds ≤ 64 }
    ensures sender { result.0 ≡ number_of_kind (template_view template.now) (pair_view pair.now).sender }
    ensures receiver { result.1 ≡ number_of_kind (template_view template.now) (pair_view pair.now).receiver }
    ensures within { (result.0 < length (template_view template.now).kinds) × (result.1 < length (template_view template.now).kinds) }
{
    (
        number_of_kind(template, pair.sender),
        number_of_kind(template, pair.receiver),
    )
}

/// Returns the denied pairs of the template.
fn denied_pairs(alloc: Global, template: &RawTemplate<'_>) -> Result<Vec<(u8, u8)>, AllocError>
    requires some { 1 ≤ length (template_view template.now).kinds }
    requires few { length (template_view template.now).kinds ≤ 64 }
    ensures { IfOk result (λ pairs. pairs.items ≡ (declared_table (template_view template.now)).denied) }
{
    let mut pairs = Vec::new(alloc);
    for pair in &template.deny {
        pairs.push(pair_of(template, pair))?;
    }
    Ok(pairs)
}
