//! The lines of a text, and the tokens of a line. Nothing is copied: each line and each token is a
//! slice of the text.

ghost use Rattle.std.specs.Prelude.{◌≡◌, ◌∷◌, [], ◌<◌, false, IfNone, IfSome, length, not, slice_index_or};
ghost use Rattle.std.specs.Option.{option_map_or};
ghost use Rattle.std.specs.List.{position};
ghost use Rattle.text_core.specs.Lines.{lines, words, is_blank, is_comment, begins_with};

use crate::pieces::split_once;
use std::marker::Model;

/// The remaining lines of a text.
#[derive(Drop)]
pub struct Lines<'a> {
    rest: &'a [u8],
}

impl<'a> Model for Lines<'a> {
    ghost use Rattle.std.specs.Prelude.{ℕ, List};
    ghost use Rattle.text_core.specs.Lines.{lines};

    ghost Value = { List (List ℕ) };

    ghost view = { λ l. lines l.rest.now };
}

impl<'a> Lines<'a> {
    /// Returns all lines of a text.
    pub fn new(text: &'a [u8]) -> Lines<'a>
        ensures { result ≡ lines text.now }
    {
        Lines { rest: text }
    }

    /// Removes and returns the next line, without the byte that ends it.
    pub fn next_line(&mut self) -> Option<&'a [u8]>
        ensures next { self.old ≡ option_map_or (λ line. line.now ∷ self.new) result [] }
        ensures end { IfNone result (self.new ≡ []) }
    {
        let (line, rest) = first_line(self.rest)?;
        self.rest = rest;
        Some(line)
    }
}

#[tactic(auto, using(crate::proofs::LinesLaws::lines_none, crate::proofs::LinesLaws::lines_cut, crate::proofs::LinesLaws::lines_whole))]
fn first_line(text: &[u8]) -> Option<(&[u8], &[u8])>
    ensures some { IfSome result (λ parts. lines text.now ≡ parts.0.now ∷ lines parts.1.now) }
    ensures none { IfNone result (lines text.now ≡ []) }
{
    if text.is_empty() {
        return None;
    }
    match split_once(text, b'\n') {
        Some((line, rest)) => Some((line, rest)),
        None => Some((text, &[])),
    }
}

/// The remaining tokens of a line.
#[derive(Drop)]
pub struct Words<'a> {
    rest: &'a [u8],
}

impl<'a> Model for Words<'a> {
    ghost use Rattle.std.specs.Prelude.{ℕ, List};
    ghost use Rattle.text_core.specs.Lines.{words};

    ghost Value = { List (List ℕ) };

    ghost view = { λ w. words w.rest.now };
}

impl<'a> Words<'a> {
    /// Returns all tokens of a line.
    pub fn new(line: &'a [u8]) -> Words<'a>
        ensures { result ≡ words line.now }
    {
        Words { rest: line }
    }

    /// Removes and returns the next token.
    pub fn next_word(&mut self) -> Option<&'a [u8]>
        ensures next { self.old ≡ option_map_or (λ word. word.now ∷ self.new) result [] }
        ensures end { IfNone result (self.new ≡ []) }
    {
        let (word, rest) = first_word(self.rest)?;
        self.rest = rest;
        Some(word)
    }
}

#[tactic(auto, using(crate::proofs::LinesLaws::words_past, crate::proofs::LinesLaws::word_begins, crate::proofs::LinesLaws::words_past_none))]
fn first_word(line: &[u8]) -> Option<(&[u8], &[u8])>
    ensures some { IfSome result (λ parts. words line.now ≡ parts.0.now ∷ words parts.1.now) }
    ensures none { IfNone result (words line.now ≡ []) }
{
    match place_of_word(line) {
        None => None,
        Some(start) => {
            let (_, text) = line.split_at(start);
            Some(cut_word(text))
        }
    }
}

#[tactic(auto, using(crate::proofs::LinesLaws::words_first, crate::proofs::LinesLaws::words_only))]
fn cut_word(text: &[u8]) -> (&[u8], &[u8])
    requires some { 0 < length text.now }
    requires word { is_blank (slice_index_or text.now 0 0) ≡ false }
    ensures { words text.now ≡ result.0.now ∷ words result.1.now }
{
    match place_of_blank(text) {
        None => (text, &[]),
        Some(end) => text.split_at(end),
    }
}

fn place_of_word(line: &[u8]) -> Option<usize>
    ensures { result ≡ position (λ b. not (is_blank b)) line.now }
{
    line.iter().position(|byte| !is_blank(*byte))
}

fn place_of_blank(line: &[u8]) -> Option<usize>
    ensures { result ≡ position is_blank line.now }
{
    line.iter().position(|byte| is_blank(*byte))
}

/// Whether the byte separates tokens: a space or a tab.
pub fn is_blank(byte: u8) -> bool
    ensures { result ≡ is_blank byte }
{
    byte == b' ' || byte == b'\t'
}

/// Whether a line is a comment: it has no token, or its first token begins with `#`.
#[tactic(auto, unfolding(crate::specs::Lines::is_comment))]
pub fn is_comment(line: &[u8]) -> bool
    ensures { result ≡ is_comment line.now }
{
    match first_word(line) {
        None => true,
        Some((word, _)) => begins_with(word, b'#'),
    }
}

/// Whether the first byte of the text is `mark`.
pub fn begins_with(text: &[u8], mark: u8) -> bool
    ensures { result ≡ begins_with mark text.now }
{
    match text {
        [first, ..] => *first == mark,
        [] => false,
    }
}
