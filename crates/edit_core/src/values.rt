//! Copies of the values and tables of a TOML table.

ghost use Rattle.std.specs.Prelude.{◌≡◌, map, string_bytes, IfOk};
ghost use Rattle.edit_core.specs.Edited.{text_list, with_list};
ghost use Rattle.toml.specs.Data.{string};
ghost use Rattle.toml.specs.View.{table_view, view};

use std::alloc::{AllocError, Global};
use toml::{Table, Value};

/// Returns a copy of each value.
pub(crate) fn copy_values(alloc: Global, values: &[Value]) -> Result<Vec<Value>, AllocError>
    ensures { IfOk result (λ copies. map view copies.items ≡ map view values.now) }
{
    let mut copies = Vec::new(alloc);
    for value in values {
        copies.push(copy_value(value)?)?;
    }
    Ok(copies)
}

pub(crate) fn copy_value(value: &Value) -> Result<Value, AllocError>
    ensures { IfOk result (λ copy. view copy ≡ view value.now) }
{
    value.clone()
}

pub(crate) fn copy_table(table: &Table) -> Result<Table, AllocError>
    ensures { IfOk result (λ copy. table_view copy ≡ table_view table.now) }
{
    table.clone()
}

/// Returns a copy of the table with these values as the list at a key.
pub(crate) fn with_list(
    alloc: Global,
    table: &Table,
    key: &str,
    values: Vec<Value>,
) -> Result<Table, AllocError>
    ensures { IfOk result (λ copy. table_view copy ≡ with_list key.now (map view values.items) (table_view table.now)) }
{
    let mut copy = copy_table(table)?;
    copy.insert(String::from_str(alloc, key)?, Value::Array(values))?;
    Ok(copy)
}

/// Returns a list of strings.
pub(crate) fn text_list(alloc: Global, texts: &[String]) -> Result<Value, AllocError>
    ensures { IfOk result (λ value. view value ≡ text_list (map string_bytes texts.now)) }
{
    Ok(Value::Array(text_values(alloc, texts)?))
}

fn text_values(alloc: Global, texts: &[String]) -> Result<Vec<Value>, AllocError>
    ensures { IfOk result (λ values. map view values.items ≡ map string (map string_bytes texts.now)) }
{
    let mut values = Vec::new(alloc);
    for text in texts {
        values.push(text_value(alloc, text.as_str())?)?;
    }
    Ok(values)
}

fn text_value(alloc: Global, text: &str) -> Result<Value, AllocError>
    ensures { IfOk result (λ value. view value ≡ string text.now) }
{
    Ok(Value::String(String::from_str(alloc, text)?))
}
