//! The errors of parsing a line-oriented file.

ghost use Rattle.std.specs.Prelude.{◌≡◌};
ghost use Rattle.text_core.specs.declared.faults.LineFault.TheVariants.{Memory};

use std::alloc::{AllocError, AllocFailed};
use std::fmt::Display;
use thiserror::Error;

/// The reason why one line is not parsed.
#[derive(Clone, Copy, Debug, PartialEq, Eq)]
pub enum LineFault<W> {
    /// The line is rejected.
    Bad(W),
    /// Memory allocation failed.
    Memory,
}

/// The reason why a list file with one entry per line is rejected. Each format defines its entries.
#[derive(Clone, Copy, Debug, PartialEq, Eq, Error)]
pub enum ListWhy {
    /// The file exceeds its size limit.
    #[error("TooLong")]
    TooLong,
    /// The tokens of the line do not have the shape of an entry.
    #[error("BadLine")]
    BadLine,
    /// The line has the shape of an entry, but one of its tokens is not a valid value.
    #[error("BadValue")]
    BadValue,
    /// The line exceeds the limit on entries.
    #[error("TooMany")]
    TooMany,
}

/// The reason why a file is rejected: the first bad line, counted from 1, and the reason. Line 0
/// means the whole file.
#[derive(Clone, Copy, Debug, PartialEq, Eq, Error)]
#[error_bound(W: Display)]
pub enum TextFault<W> {
    /// The file has no parse result.
    #[error("line {line}: {why}")]
    Refused { line: u32, why: W },
    /// Memory allocation failed.
    #[error("out of memory")]
    Memory,
}

impl<W> From<AllocError> for LineFault<W> {
    ghost from_gives = { λ _ fault. fault ≡ Memory };

    fn from(_: AllocError) -> LineFault<W> {
        LineFault::Memory
    }
}

impl<T: Drop, W> From<AllocFailed<T>> for LineFault<W> {
    ghost from_gives = { λ _ fault. fault ≡ Memory };

    fn from(_: AllocFailed<T>) -> LineFault<W> {
        LineFault::Memory
    }
}
