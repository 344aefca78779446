//! The reasons why a file is no flow table.

ghost use Rattle.std.specs.Prelude.{◌≡◌};
ghost use Rattle.ofp_read.specs.TextLines.{flows_reason};

use text_core::TextFault;
use thiserror::Error;

/// The reason why a line that is no comment adds no entry to the preceding ones, or why a file is
/// rejected as a whole.
#[derive(Clone, Copy, Debug, PartialEq, Eq, Error)]
pub enum OfpWhy {
    /// The file has more than 67,108,864 bytes. The line is 0.
    #[error("TooLong")]
    TooLong,
    /// A field is repeated, the line has a second frame kind or protocol, or it has no action.
    #[error("BadLine")]
    BadLine,
    /// The field is not in the table of fields.
    #[error("UnknownField")]
    UnknownField,
    /// The value is invalid for its field.
    #[error("BadValue")]
    BadValue,
    /// The line has an address or a protocol but does not match IPv4 frames, or has a port but does
    /// not match a protocol with ports.
    #[error("NeedsIp")]
    NeedsIp,
    /// The action is unknown.
    #[error("UnknownAction")]
    UnknownAction,
    /// A preceding entry of equal priority has another action for some frame.
    #[error("Ambiguous")]
    Ambiguous,
    /// The line has the 8,193rd entry.
    #[error("TooMany")]
    TooMany,
}

impl OfpWhy {
    /// Returns the name of the reason, as it is printed.
    pub fn name(self) -> &'static [u8]
        ensures { result.now ≡ flows_reason self }
    {
        match self {
            OfpWhy::TooLong => b"TooLong",
            OfpWhy::BadLine => b"BadLine",
            OfpWhy::UnknownField => b"UnknownField",
            OfpWhy::BadValue => b"BadValue",
            OfpWhy::NeedsIp => b"NeedsIp",
            OfpWhy::UnknownAction => b"UnknownAction",
            OfpWhy::Ambiguous => b"Ambiguous",
            OfpWhy::TooMany => b"TooMany",
        }
    }
}

/// The reason why a file is no flow table: the first line that neither is a comment nor adds an
/// entry, counted from 1, and the reason. Line 0 means the whole file, which is too long.
pub type OfpFault = TextFault<OfpWhy>;
