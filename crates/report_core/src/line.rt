//! The line of one event.

ghost use Rattle.std.specs.Prelude.{◌≡◌, ◌++◌, OnOk, decimal};
ghost use Rattle.report_core.specs.Trace.{answer_line};

use std::alloc::AllocError;

/// Appends the line of an event: its number, and its result in the run.
pub(crate) fn push_answer(
    text: &mut Vec<u8>,
    number: usize,
    answer: Option<bool>,
) -> Result<(), AllocError>
    ensures { OnOk result (text.new.items ≡ text.old.items ++ answer_line number answer) }
{
    match answer {
        Some(true) => push_numbered(text, number, b" forward\n"),
        Some(false) => push_numbered(text, number, b" drop\n"),
        None => push_numbered(text, number, b" forgotten\n"),
    }
}

/// Appends a number followed by words.
pub fn push_numbered(text: &mut Vec<u8>, number: usize, words: &[u8]) -> Result<(), AllocError>
    ensures { OnOk result (text.new.items ≡ text.old.items ++ (decimal number ++ words.now)) }
{
    let mut digits = itoa::Buffer::new();
    text.extend_from_slice(digits.format(number).as_bytes())?;
    text.extend_from_slice(words)
}
