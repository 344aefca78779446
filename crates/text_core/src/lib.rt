//! Byte-level parsing and formatting: names, decimal numbers, splitting at a separator, lines and
//! tokens, list files with one entry per line, strings padded to a fixed size, and lines in a
//! buffer of fixed size. The crate also finds the first element of a list that conflicts with an
//! earlier one. All parsers and formatters above share these calls, so numbers and names have the
//! same notation everywhere.
#![tactic(auto)]

mod decimals;
mod faults;
mod firsts;
mod line;
mod lines;
mod lists;
mod names;
mod padding;
mod pieces;
mod texts;

pub use decimals::read_number;
pub use faults::{LineFault, ListWhy, TextFault};
pub use firsts::{Conflict, Numbered, first_conflict};
pub use line::{put, put_number};
pub use lines::{Lines, Words, begins_with, is_blank, is_comment};
pub use lists::{EntryReader, read_list};
pub use names::is_name;
pub use padding::padded;
pub use pieces::split_once;
pub use texts::{LineReader, read_counted_lines, read_lines};
