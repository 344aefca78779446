//! The description of the sample, as a TOML table.

ghost use Rattle.std.specs.Prelude.{◌≡◌, ◌++◌, ◌∷◌, [], if◌then◌else◌, IfOk, OnOk, codes, map, pos, ◌%◌, string_bytes};
ghost use Rattle.desc_core.specs.Migrated.{with_member};
ghost use Rattle.sample_core.specs.SampleTable.{care_table, host_table, hosts_in_care, invariant_tables, level_table, sample_hosts, sample_name, sample_prefix, sample_table};
ghost use Rattle.sample_core.specs.inner.TableParts.{is_in_care, table_value};
ghost use Rattle.toml.specs.Data.{array, string, integer, table, no_members};
ghost use Rattle.toml.specs.View.{items_view, table_view, view};

use std::alloc::{AllocError, Global};
use toml::{Table, Value};

/// Returns the table of a description of `count` hosts.
#[tactic(auto, unfolding(crate::specs::SampleTable::sample_table))]
pub(crate) fn sample_table(alloc: Global, count: u16) -> Result<Table, AllocError>
    ensures { IfOk result (λ table. table_view table ≡ sample_table count) }
{
    let mut document = Table::new(alloc);
    put(alloc, &mut document, "answers", text(alloc, "all")?)?;
    put(
        alloc,
        &mut document,
        "host",
        Value::Array(hosts(alloc, count)?),
    )?;
    put(
        alloc,
        &mut document,
        "invariant",
        Value::Array(invariants(alloc, count)?),
    )?;
    put(alloc, &mut document, "topos", Value::Integer(1))?;
    Ok(document)
}

/// Returns a table for each host.
fn hosts(alloc: Global, count: u16) -> Result<Vec<Value>, AllocError>
    ensures { IfOk result (λ values. map view values.items ≡ map (table_value host_table) (sample_hosts count)) }
{
    let mut values = Vec::new(alloc);
    for host in 0..count {
        values.push(host_value(alloc, host)?)?;
    }
    Ok(values)
}

fn host_value(alloc: Global, host: u16) -> Result<Value, AllocError>
    ensures { IfOk result (λ value. view value ≡ table (host_table host)) }
{
    let mut at = Vec::new(alloc);
    at.push(Value::String(prefix(alloc, host)?))?;
    let mut table = Table::new(alloc);
    put(alloc, &mut table, "at", Value::Array(at))?;
    put(alloc, &mut table, "name", Value::String(name(alloc, host)?))?;
    Ok(Value::Table(table))
}

/// Returns both invariants.
fn invariants(alloc: Global, count: u16) -> Result<Vec<Value>, AllocError>
    ensures { IfOk result (λ values. items_view values.items ≡ invariant_tables count) }
{
    let mut values = Vec::new(alloc);
    values.push(invariant(alloc, "blp", levels(alloc, count)?)?)?;
    values.push(invariant(alloc, "partners", cares(alloc, count)?)?)?;
    Ok(values)
}

fn invariant(alloc: Global, template: &str, assigns: Vec<Value>) -> Result<Value, AllocError>
    ensures { IfOk result (λ value. view value ≡ table (with_member (codes "template") (string template.now)
        (with_member (codes "assign") (array (items_view assigns.items)) no_members))) }
{
    let mut table = Table::new(alloc);
    put(alloc, &mut table, "assign", Value::Array(assigns))?;
    put(alloc, &mut table, "template", text(alloc, template)?)?;
    Ok(Value::Table(table))
}

/// Returns the levels of all hosts.
fn levels(alloc: Global, count: u16) -> Result<Vec<Value>, AllocError>
    ensures { IfOk result (λ values. map view values.items ≡ map (table_value level_table) (sample_hosts count)) }
{
    let mut values = Vec::new(alloc);
    for host in 0..count {
        values.push(assign(alloc, host, "level", level(host))?)?;
    }
    Ok(values)
}

fn level(host: u16) -> Value
    ensures { view result ≡ integer (pos (host % 4)) }
{
    Value::Integer(i64::from(host % 4))
}

/// Returns the assigns of `care`.
fn cares(alloc: Global, count: u16) -> Result<Vec<Value>, AllocError>
    ensures { IfOk result (λ values. map view values.items ≡ map (table_value care_table) (hosts_in_care count)) }
{
    let mut values = Vec::new(alloc);
    for host in 0..count {
        push_care(alloc, &mut values, host)?;
    }
    Ok(values)
}

/// Appends the assign of `care` for a host.
fn push_care(alloc: Global, values: &mut Vec<Value>, host: u16) -> Result<(), AllocError>
    ensures { OnOk result (map view values.new.items ≡ map view values.old.items ++ (if is_in_care host then table (care_table host) ∷ [] else [])) }
{
    if host % 8 == 0 {
        values.push(assign(alloc, host, "kind", text(alloc, "care")?)?)?;
    }
    Ok(())
}

/// Returns the assign of a host, with one key in addition to its name.
fn assign(alloc: Global, host: u16, key: &str, value: Value) -> Result<Value, AllocError>
    ensures { IfOk result (λ made. view made ≡ table (with_member key.now (view value)
        (with_member (codes "host") (string (sample_name host)) no_members))) }
{
    let mut table = Table::new(alloc);
    put(alloc, &mut table, "host", Value::String(name(alloc, host)?))?;
    put(alloc, &mut table, key, value)?;
    Ok(Value::Table(table))
}

#[tactic(auto, unfolding(crate::specs::SampleTable::sample_name))]
fn name(alloc: Global, host: u16) -> Result<String, AllocError>
    ensures { IfOk result (λ name. string_bytes name ≡ sample_name host) }
{
    format!(in alloc; "h{host}")
}

#[tactic(auto, unfolding(crate::specs::SampleTable::sample_prefix))]
fn prefix(alloc: Global, host: u16) -> Result<String, AllocError>
    ensures { IfOk result (λ text. string_bytes text ≡ sample_prefix host) }
{
    format!(in alloc; "10.0.0.{host}/32")
}

fn text(alloc: Global, text: &str) -> Result<Value, AllocError>
    ensures { IfOk result (λ value. view value ≡ string text.now) }
{
    Ok(Value::String(String::from_str(alloc, text)?))
}

/// Inserts a value at a key.
fn put(alloc: Global, table: &mut Table, key: &str, value: Value) -> Result<(), AllocError>
    ensures { OnOk result (table_view table.new ≡ with_member key.now (view value) (table_view table.old)) }
{
    table.insert(String::from_str(alloc, key)?, value)?;
    Ok(())
}
