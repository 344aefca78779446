//! Parsing one line of an edit file.

ghost use Rattle.std.specs.Prelude.{◌≡◌, ◌∷◌, [], ◌++◌, IfOk, IfErr, codes, map, option_map, string_bytes};
ghost use Rattle.std.specs.Result.{result_map_both};
ghost use Rattle.edit_core.specs.inner.ChangeSteps.{add_of, assign_of, change_of, invariant_said, remove_of, set_of, text_of, unset_of, value_in};
ghost use Rattle.edit_core.specs.inner.EditsAnswers.{PutsTexts, Says, SaysValue};
ghost use Rattle.toml.specs.Data.{as_table};
ghost use Rattle.toml.specs.Parse.{parse_document};
ghost use Rattle.toml.specs.View.{table_view, view};

use crate::behind::after_first_word;
use crate::edit::Change;
use host_net::INVARIANT_LIMIT;
use std::alloc::Global;
use std::str;
use table_core::text_at;
use text_core::{LineFault, ListWhy, Words, read_number};
use toml::{Table, Value};

/// Parses the change of a line, or returns the reason why it encodes none.
#[tactic(auto, unfolding(crate::specs::inner::ChangeSteps::change_of))]
pub(crate) fn read_change(alloc: Global, line: &[u8]) -> Result<Change, LineFault<ListWhy>>
    ensures { Says (change_of line.now) result }
{
    let mut words = Words::new(line);
    let verb = next_of(&mut words)?;
    if verb == b"add".as_slice() {
        return read_add(alloc, words);
    }
    if verb == b"remove".as_slice() {
        return read_remove(alloc, words);
    }
    if verb == b"set".as_slice() {
        return read_set(alloc, words, after_first_word(after_first_word(line)));
    }
    if verb == b"unset".as_slice() {
        return read_unset(alloc, words);
    }
    Err(LineFault::Bad(ListWhy::BadLine))
}

/// Returns the next token, if the shape of a line requires one.
fn next_of<'a>(words: &mut Words<'a>) -> Result<&'a [u8], LineFault<ListWhy>>
    ensures next { IfOk result (λ word. words.old ≡ word.now ∷ words.new) }
    ensures end { IfErr result (λ fault. (words.old ≡ []) × (fault ≡ LineFault.Bad ListWhy.BadLine)) }
{
    words.next_word().ok_or(LineFault::Bad(ListWhy::BadLine))
}

/// Parses a listed flow, from the tokens after `add`.
fn read_add(alloc: Global, mut words: Words<'_>) -> Result<Change, LineFault<ListWhy>>
    ensures { Says (add_of words.entry) result }
{
    let from = next_of(&mut words)?;
    let to = next_of(&mut words)?;
    let mut texts = Vec::new(alloc);
    texts.push(read_text(alloc, from)?)?;
    texts.push(read_text(alloc, to)?)?;
    read_texts(alloc, &mut texts, words)?;
    Ok(Change::Add(texts))
}

/// Appends the tokens to the strings.
fn read_texts(
    alloc: Global,
    texts: &mut Vec<String>,
    mut words: Words<'_>,
) -> Result<(), LineFault<ListWhy>>
    ensures { PutsTexts words.entry (map string_bytes texts.old.items) (map string_bytes texts.new.items) result }
{
    while let Some(word) = words.next_word() {
        texts.push(read_text(alloc, word)?)?;
    }
    Ok(())
}

/// Parses a removed flow, from the tokens after `remove`.
fn read_remove(alloc: Global, mut words: Words<'_>) -> Result<Change, LineFault<ListWhy>>
    ensures { Says (remove_of words.entry) result }
{
    let from = next_of(&mut words)?;
    let to = next_of(&mut words)?;
    if words.next_word().is_some() {
        return Err(LineFault::Bad(ListWhy::BadLine));
    }
    let from = read_text(alloc, from)?;
    let to = read_text(alloc, to)?;
    Ok(Change::Remove(from, to))
}

/// Parses an assign, from the tokens after `set` and the text after the first of them.
fn read_set(alloc: Global, mut words: Words<'_>, text: &[u8]) -> Result<Change, LineFault<ListWhy>>
    ensures { Says (set_of text.now words.entry) result }
{
    let number = next_of(&mut words)?;
    let _word = next_of(&mut words)?;
    let Some(number) = invariant_said(number) else {
        return Err(LineFault::Bad(ListWhy::BadValue));
    };
    Ok(Change::Set(number, read_assign(alloc, text)?))
}

/// Parses the removal of an assign, from the tokens after `unset`.
fn read_unset(alloc: Global, mut words: Words<'_>) -> Result<Change, LineFault<ListWhy>>
    ensures { Says (unset_of words.entry) result }
{
    let number = next_of(&mut words)?;
    let host = next_of(&mut words)?;
    if words.next_word().is_some() {
        return Err(LineFault::Bad(ListWhy::BadLine));
    }
    let Some(number) = invariant_said(number) else {
        return Err(LineFault::Bad(ListWhy::BadValue));
    };
    Ok(Change::Unset(number, read_text(alloc, host)?))
}

/// Parses the number of an invariant, from 1.
fn invariant_said(word: &[u8]) -> Option<u8>
    ensures { result ≡ invariant_said word.now }
{
    let number = read_number(INVARIANT_LIMIT as u32, word)?;
    if number == 0 {
        return None;
    }
    Some(number as u8)
}

/// Returns a token as a string.
fn read_text(alloc: Global, word: &[u8]) -> Result<String, LineFault<ListWhy>>
    ensures { SaysValue (text_of word.now) (result_map_both string_bytes (λ fault. fault) result) }
{
    match str::from_utf8(word) {
        Ok(text) => Ok(String::from_str(alloc, text)?),
        Err(_) => Err(LineFault::Bad(ListWhy::BadValue)),
    }
}

/// Parses the table of an assign from a TOML value.
#[tactic(auto, unfolding(crate::specs::inner::ChangeSteps::assign_of))]
fn read_assign(alloc: Global, text: &[u8]) -> Result<Table, LineFault<ListWhy>>
    ensures { SaysValue (assign_of text.now) (result_map_both table_view (λ fault. fault) result) }
{
    let Ok(text) = str::from_utf8(text) else {
        return Err(LineFault::Bad(ListWhy::BadValue));
    };
    let document = read_document(alloc, text)?;
    let Some(assign) = value_in(document) else {
        return Err(LineFault::Bad(ListWhy::BadValue));
    };
    if text_at(&assign, "host").is_none() {
        return Err(LineFault::Bad(ListWhy::BadValue));
    }
    Ok(assign)
}

/// Parses the document `v = ` followed by the text.
fn read_document(alloc: Global, text: &str) -> Result<Table, LineFault<ListWhy>>
    ensures { SaysValue (parse_document (codes "v = " ++ text.now)) (result_map_both table_view (λ fault. fault) result) }
{
    let mut line = String::from_str(alloc, "v = ")?;
    line.push_str(text)?;
    match toml::table_from_str(alloc, line.as_str()) {
        Ok(document) => Ok(document),
        Err(error) => Err(if error.is_memory() {
            LineFault::Memory
        } else {
            LineFault::Bad(ListWhy::BadValue)
        }),
    }
}

/// Returns the table at `v`.
fn value_in(mut document: Table) -> Option<Table>
    ensures { option_map table_view result ≡ value_in (table_view document) }
{
    let value = document.remove("v")?;
    table_in(value)
}

/// Returns the table, if the value is one.
fn table_in(value: Value) -> Option<Table>
    ensures { option_map table_view result ≡ as_table (view value) }
{
    match value {
        Value::Table(table) => Some(table),
        _ => None,
    }
}
