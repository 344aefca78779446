//! The reasons why a file is the text of no table.

ghost use Rattle.std.specs.Prelude.{◌≡◌};
ghost use Rattle.nft_read.specs.Reading.{name};

use text_core::TextFault;
use thiserror::Error;

/// The reason why a file is the text of no table that can be loaded.
#[derive(Clone, Copy, Debug, PartialEq, Eq, Error)]
pub enum NftWhy {
    /// The file has more than 67,108,864 bytes. The line is 0.
    #[error("TooLong")]
    TooLong,
    /// No text of a table begins with the lines up to this one.
    #[error("BadLine")]
    BadLine,
    /// The file ends within a table, its table cannot be loaded, or `nft` prints the table otherwise.
    /// The line is 0.
    #[error("NoTable")]
    NoTable,
}

impl NftWhy {
    /// Returns the name of the reason, as it is printed.
    pub fn name(self) -> &'static [u8]
        ensures { result.now ≡ name self }
    {
        match self {
            NftWhy::TooLong => b"TooLong",
            NftWhy::BadLine => b"BadLine",
            NftWhy::NoTable => b"NoTable",
        }
    }
}

/// The reason why a file is the text of no table, and the line, counted from 1. Line 0 means the
/// whole file.
pub type NftFault = TextFault<NftWhy>;
