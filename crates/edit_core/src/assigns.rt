//! Edits of the assigns of an invariant.

ghost use Rattle.std.specs.Prelude.{◌≡◌, ◌-◌, codes, map, option_map, filter, if◌then◌else◌, not, slice_get, IfOk};
ghost use Rattle.std.specs.List.{list_any, slice_set};
ghost use Rattle.std.specs.Result.{result_map_both};
ghost use Rattle.desc_form.specs.Places.{assigns_of, listed};
ghost use Rattle.desc_form.specs.RawDescription.{text_in};
ghost use Rattle.edit_core.specs.Edited.{assigned, edited, invariant_with, is_of_host, others, with_list};
ghost use Rattle.edit_core.specs.Edit.{Set, Unset};
ghost use Rattle.edit_core.specs.inner.EditFaults.{Gives};
ghost use Rattle.toml.specs.Data.{table};
ghost use Rattle.toml.specs.View.{table_view, view};

use crate::fault::{ChangeFault, EditWhy};
use crate::values::{copy_table, copy_value, copy_values, with_list};
use desc_form::{assigns_of, listed, text_in};
use std::alloc::{AllocError, Global};
use table_core::text_at;
use toml::{Table, Value};

/// Returns the table in which an invariant, given by its number from 1, has the assign of a host.
#[tactic(auto, unfolding(crate::specs::Edited::edited))]
pub(crate) fn set_in(
    alloc: Global,
    document: &Table,
    number: u8,
    assign: &Table,
) -> Result<Table, ChangeFault>
    ensures { Gives (edited (Set number (table_view assign.now)) (table_view document.now)) (result_map_both table_view (λ fault. fault) result) }
{
    let Some(invariant) = invariant_at(document, number) else {
        return Err(ChangeFault::Refused(EditWhy::Absent));
    };
    let assigns = assigned(alloc, assigns_of(invariant), assign)?;
    Ok(with_assigns(alloc, document, number, invariant, assigns)?)
}

/// Returns the table in which an invariant, given by its number from 1, has no assign of a host.
#[tactic(auto, unfolding(crate::specs::Edited::edited))]
pub(crate) fn unset_in(
    alloc: Global,
    document: &Table,
    number: u8,
    host: &str,
) -> Result<Table, ChangeFault>
    ensures { Gives (edited (Unset number host.now) (table_view document.now)) (result_map_both table_view (λ fault. fault) result) }
{
    let Some(invariant) = invariant_at(document, number) else {
        return Err(ChangeFault::Refused(EditWhy::Absent));
    };
    let assigns = other_assigns(alloc, assigns_of(invariant), host)?;
    Ok(with_assigns(alloc, document, number, invariant, assigns)?)
}

/// Returns the invariant with a number, from 1.
fn invariant_at(document: &Table, number: u8) -> Option<&Value>
    ensures { option_map (λ value. view value.now) result ≡ slice_get (listed (codes "invariant") (table_view document.now)) (number - 1) }
{
    listed(document, "invariant").get(number.saturating_sub(1) as usize)
}

/// Returns the table in which the invariant with a number, from 1, has these assigns.
fn with_assigns(
    alloc: Global,
    document: &Table,
    number: u8,
    invariant: &Value,
    assigns: Vec<Value>,
) -> Result<Table, AllocError>
    ensures { IfOk result (λ table. table_view table ≡ with_list (codes "invariant") (slice_set (listed (codes "invariant") (table_view document.now)) (number - 1)
        (invariant_with (map view assigns.items) (view invariant.now))) (table_view document.now)) }
{
    let changed = invariant_with(alloc, invariant, assigns)?;
    let mut invariants = copy_values(alloc, listed(document, "invariant"))?;
    put_at(&mut invariants, number.saturating_sub(1) as usize, changed);
    with_list(alloc, document, "invariant", invariants)
}

/// Returns the invariant with these assigns.
fn invariant_with(
    alloc: Global,
    invariant: &Value,
    assigns: Vec<Value>,
) -> Result<Value, AllocError>
    ensures { IfOk result (λ changed. view changed ≡ invariant_with (map view assigns.items) (view invariant.now)) }
{
    match invariant.as_table() {
        Some(members) => Ok(Value::Table(with_list(alloc, members, "assign", assigns)?)),
        None => copy_value(invariant),
    }
}

/// Replaces the value at an index, if there is one.
fn put_at(values: &mut Vec<Value>, place: usize, value: Value)
    ensures { map view values.new.items ≡ slice_set (map view values.old.items) place (view value) }
{
    if place < values.len() {
        values[place] = value;
    }
}

/// Returns the assigns with one for its host: in place of the existing assign of the host, or at
/// the end if there is none.
fn assigned(alloc: Global, assigns: &[Value], assign: &Table) -> Result<Vec<Value>, AllocError>
    ensures { IfOk result (λ values. map view values.items ≡ assigned (text_in (codes "host") (table_view assign.now)) (table_view assign.now) (map view assigns.now)) }
{
    let host = text_in(assign, "host");
    if has_host(assigns, host) {
        return replaced(alloc, assigns, host, assign);
    }
    let mut values = copy_values(alloc, assigns)?;
    values.push(Value::Table(copy_table(assign)?))?;
    Ok(values)
}

fn has_host(assigns: &[Value], host: &str) -> bool
    ensures { result ≡ list_any (is_of_host host.now) (map view assigns.now) }
{
    names_any(assigns, host)
}

fn names_any(assigns: &[Value], host: &str) -> bool
    ensures { result ≡ list_any (λ value. is_of_host host.now (view value)) assigns.now }
{
    assigns.iter().any(|assign| is_of_host(assign, host))
}

/// Returns the assigns with this table in place of that of the host.
fn replaced(
    alloc: Global,
    assigns: &[Value],
    host: &str,
    assign: &Table,
) -> Result<Vec<Value>, AllocError>
    ensures { IfOk result (λ values. map view values.items ≡ map (λ d. if is_of_host host.now d then table (table_view assign.now) else d) (map view assigns.now)) }
{
    let mut values = Vec::new(alloc);
    for value in assigns {
        values.push(replacement(value, host, assign)?)?;
    }
    Ok(values)
}

fn replacement(value: &Value, host: &str, assign: &Table) -> Result<Value, AllocError>
    ensures { IfOk result (λ new. view new ≡ (if is_of_host host.now (view value.now) then table (table_view assign.now) else view value.now)) }
{
    if is_of_host(value, host) {
        Ok(Value::Table(copy_table(assign)?))
    } else {
        copy_value(value)
    }
}

/// Returns a copy of each assign of other hosts, if the host has an assign.
fn other_assigns(alloc: Global, listed: &[Value], host: &str) -> Result<Vec<Value>, ChangeFault>
    ensures { Gives (others (is_of_host host.now) (map view listed.now)) (result_map_both (λ values. map view values.items) (λ fault. fault) result) }
{
    let mut assigns = copy_values(alloc, listed)?;
    retain_others(&mut assigns, host);
    if assigns.len() == listed.len() {
        return Err(ChangeFault::Refused(EditWhy::Absent));
    }
    Ok(assigns)
}

/// Removes the assigns of a host.
fn retain_others(assigns: &mut Vec<Value>, host: &str)
    ensures { map view assigns.new.items ≡ filter (λ d. not (is_of_host host.now d)) (map view assigns.old.items) }
{
    assigns.retain(|assign| !is_of_host(assign, host));
}

/// Whether an assign is for the host.
fn is_of_host(assign: &Value, host: &str) -> bool
    ensures { result ≡ is_of_host host.now (view assign.now) }
{
    let Some(assign) = assign.as_table() else {
        return false;
    };
    match text_at(assign, "host") {
        Some(named) => host == named,
        None => false,
    }
}
