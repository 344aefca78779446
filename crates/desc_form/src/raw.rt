//! The raw description: the content of the tables, without name resolution.
ghost use Rattle.std.specs.Prelude.{◌≡◌, None, filter_map, IfOk, map};
ghost use Rattle.text_core.specs.FirstMatch.{first_of};
ghost use Rattle.desc_form.specs.FormConditions.{form_conditions};
ghost use Rattle.desc_form.specs.Places.{listed};
ghost use Rattle.desc_form.specs.RawFlow.{raw_flow};
ghost use Rattle.desc_form.specs.RawTemplate.{raw_pair};
ghost use Rattle.desc_form.specs.inner.RawView.{assign_view, flow_view, host_view, invariant_view, pair_view, template_view, raw_view};
ghost use Rattle.desc_form.specs.RawDescription.{raw_assign, raw_host, raw_invariant, raw_template, text_in, written};
ghost use Rattle.desc_form.specs.RawDescription as meant;
ghost use Rattle.desc_form.specs.inner.RawForm.{IsRawOf};
ghost use Rattle.toml.specs.Data.{as_str, as_table};
ghost use Rattle.toml.specs.View.{view, table_view};

use crate::flows::{read_flow, read_pair};
use crate::places::listed;
use std::alloc::{AllocError, Global};
use table_core::{boolean_at, has_key, integer_at, text_at};
use toml::{Table, Value};

/// A host: its name, its prefixes as strings, and whether it is the rest host.
#[derive(Drop)]
pub struct RawHost<'a> {
    pub name: &'a str,
    pub at: Vec<&'a str>,
    pub rest: bool,
}

/// An assign: the name of its host, and the table that specifies an attribute.
#[derive(Clone, Copy)]
pub struct RawAssign<'a> {
    pub host: &'a str,
    pub table: &'a Table,
}

/// An invariant: the name of its template, and its assigns.
#[derive(Drop)]
pub struct RawInvariant<'a> {
    pub template: &'a str,
    pub assigns: Vec<RawAssign<'a>>,
}

/// A flow: the names of its two hosts, and its services as strings; an unrestricted flow has none.
#[derive(Drop)]
pub struct RawFlow<'a> {
    pub from: &'a str,
    pub to: &'a str,
    pub services: Vec<&'a str>,
}

/// A pair of kinds that a template denies.
#[derive(Clone, Copy)]
pub struct RawPair<'a> {
    pub sender: &'a str,
    pub receiver: &'a str,
}

/// A template: its name, its strategy, the names of its kinds and of its default, and the pairs
/// that it denies.
#[derive(Drop)]
pub struct RawTemplate<'a> {
    pub name: &'a str,
    pub strategy: &'a str,
    pub kinds: Vec<&'a str>,
    pub default: &'a str,
    pub deny: Vec<RawPair<'a>>,
}

/// A raw description, before name resolution.
#[derive(Drop)]
pub struct RawDescription<'a> {
    pub version: i64,
    /// Whether flows may have answers.
    pub answers: bool,
    pub hosts: Vec<RawHost<'a>>,
    pub invariants: Vec<RawInvariant<'a>>,
    /// Whether the key `flow` is present, possibly with an empty list.
    pub given: bool,
    pub flows: Vec<RawFlow<'a>>,
    pub templates: Vec<RawTemplate<'a>>,
}

/// Returns the string at a key; the empty string if there is none.
pub fn text_in<'a>(table: &'a Table, key: &str) -> &'a str
    ensures { result.now ≡ text_in key.now (table_view table.now) }
{
    match text_at(table, key) {
        Some(text) => text,
        None => "",
    }
}

/// Returns the strings among some values.
pub(crate) fn texts_among(alloc: Global, values: &[Value]) -> Result<Vec<&str>, AllocError>
    ensures { IfOk result (λ texts. map (λ text. text.now) texts.items ≡ filter_map as_str (map view values.now)) }
{
    let mut texts = Vec::new(alloc);
    for value in values {
        if let Some(text) = value.as_str() {
            texts.push(text)?;
        }
    }
    Ok(texts)
}

#[tactic(auto, unfolding(crate::specs::RawDescription::raw_host))]
fn raw_host(alloc: Global, table: &Table) -> Result<RawHost<'_>, AllocError>
    ensures { IfOk result (λ host. host_view host ≡ raw_host (table_view table.now)) }
{
    let at = texts_among(alloc, listed(table, "at"))?;
    Ok(RawHost {
        name: text_in(table, "name"),
        at,
        rest: boolean_at(table, "rest").unwrap_or(false),
    })
}

/// Returns the hosts among some values.
fn hosts_among(alloc: Global, values: &[Value]) -> Result<Vec<RawHost<'_>>, AllocError>
    ensures { IfOk result (λ hosts. map host_view hosts.items ≡ map raw_host (filter_map as_table (map view values.now))) }
{
    let mut hosts = Vec::new(alloc);
    for value in values {
        if let Some(table) = value.as_table() {
            hosts.push(raw_host(alloc, table)?)?;
        }
    }
    Ok(hosts)
}

#[tactic(auto, unfolding(crate::specs::RawDescription::raw_assign))]
fn raw_assign(table: &Table) -> RawAssign<'_>
    ensures { assign_view result ≡ raw_assign (table_view table.now) }
{
    RawAssign {
        host: text_in(table, "host"),
        table,
    }
}

/// Returns the assigns among some values.
fn assigns_among(alloc: Global, values: &[Value]) -> Result<Vec<RawAssign<'_>>, AllocError>
    ensures { IfOk result (λ assigns. map assign_view assigns.items ≡ map raw_assign (filter_map as_table (map view values.now))) }
{
    let mut assigns = Vec::new(alloc);
    for value in values {
        if let Some(table) = value.as_table() {
            assigns.push(raw_assign(table))?;
        }
    }
    Ok(assigns)
}

#[tactic(auto, unfolding(crate::specs::RawDescription::raw_invariant))]
fn raw_invariant(alloc: Global, table: &Table) -> Result<RawInvariant<'_>, AllocError>
    ensures { IfOk result (λ invariant. invariant_view invariant ≡ raw_invariant (table_view table.now)) }
{
    let assigns = assigns_among(alloc, listed(table, "assign"))?;
    Ok(RawInvariant {
        template: text_in(table, "template"),
        assigns,
    })
}

/// Returns the invariants among some values.
fn invariants_among(alloc: Global, values: &[Value]) -> Result<Vec<RawInvariant<'_>>, AllocError>
    ensures { IfOk result (λ invariants. map invariant_view invariants.items
        ≡ map raw_invariant (filter_map as_table (map view values.now))) }
{
    let mut invariants = Vec::new(alloc);
    for value in values {
        if let Some(table) = value.as_table() {
            invariants.push(raw_invariant(alloc, table)?)?;
        }
    }
    Ok(invariants)
}

/// Returns the flows among some values.
fn flows_among(alloc: Global, values: &[Value]) -> Result<Vec<RawFlow<'_>>, AllocError>
    ensures { IfOk result (λ flows. map flow_view flows.items ≡ filter_map raw_flow (map view values.now)) }
{
    let mut flows = Vec::new(alloc);
    for value in values {
        if let Some(flow) = read_flow(alloc, value)? {
            flows.push(flow)?;
        }
    }
    Ok(flows)
}

/// Returns the pairs among some values.
fn pairs_among(alloc: Global, values: &[Value]) -> Result<Vec<RawPair<'_>>, AllocError>
    ensures { IfOk result (λ pairs. map pair_view pairs.items ≡ filter_map raw_pair (map view values.now)) }
{
    let mut pairs = Vec::new(alloc);
    for value in values {
        if let Some(pair) = read_pair(alloc, value)? {
            pairs.push(pair)?;
        }
    }
    Ok(pairs)
}

#[tactic(auto, unfolding(crate::specs::RawDescription::raw_template))]
fn raw_template(alloc: Global, table: &Table) -> Result<RawTemplate<'_>, AllocError>
    ensures { IfOk result (λ template. template_view template ≡ raw_template (table_view table.now)) }
{
    let kinds = texts_among(alloc, listed(table, "kinds"))?;
    let deny = pairs_among(alloc, listed(table, "deny"))?;
    Ok(RawTemplate {
        name: text_in(table, "name"),
        strategy: text_in(table, "strategy"),
        kinds,
        default: text_in(table, "default"),
        deny,
    })
}

/// Returns the templates among some values.
fn templates_among(alloc: Global, values: &[Value]) -> Result<Vec<RawTemplate<'_>>, AllocError>
    ensures { IfOk result (λ templates. map template_view templates.items
        ≡ map raw_template (filter_map as_table (map view values.now))) }
{
    let mut templates = Vec::new(alloc);
    for value in values {
        if let Some(table) = value.as_table() {
            templates.push(raw_template(alloc, table)?)?;
        }
    }
    Ok(templates)
}

/// Reads a raw description. A missing key or a value of a wrong type is skipped: such a description
/// is refused for it.
pub fn read_raw(alloc: Global, document: &Table) -> Result<RawDescription<'_>, AllocError>
    ensures read { IfOk result (λ read. raw_view read ≡ written (table_view document.now)) }

    // If the form is valid, nothing is skipped.
    ensures whole { first_of (form_conditions (table_view document.now)) ≡ None
        → IfOk result (λ read. IsRawOf (table_view document.now) (raw_view read)) }

    // A document has one raw description, and this is the result.
    ensures one { (said : meant.RawDescription) → IsRawOf (table_view document.now) said → IfOk result (λ read. raw_view read ≡ said) }
{
    written_in(alloc, document)
}

#[tactic(auto, unfolding(crate::specs::RawDescription::written))]
fn written_in(alloc: Global, document: &Table) -> Result<RawDescription<'_>, AllocError>
    ensures { IfOk result (λ read. raw_view read ≡ written (table_view document.now)) }
{
    let hosts = hosts_among(alloc, listed(document, "host"))?;
    let invariants = invariants_among(alloc, listed(document, "invariant"))?;
    let flows = flows_among(alloc, listed(document, "flow"))?;
    let templates = templates_among(alloc, listed(document, "template"))?;
    Ok(RawDescription {
        version: integer_at(document, "topos").unwrap_or(0),
        answers: text_in(document, "answers") != "none",
        hosts,
        invariants,
        given: has_key(document, "flow"),
        flows,
        templates,
    })
}
