//! The reasons why `iptables-restore` reads a text otherwise.

ghost use Rattle.std.specs.Prelude.{◌≡◌};
ghost use Rattle.ipt_plain.specs.Plain.{name};

use thiserror::Error;

/// The reason why `iptables-restore` may read a line, or the whole text, otherwise.
#[derive(Clone, Copy, Debug, PartialEq, Eq, Error)]
pub enum PlainWhy {
    /// The line has 10,240 bytes or more. `iptables-restore` reads it in pieces, each as a line.
    #[error("LongLine")]
    LongLine,
    /// The line has a byte 0, where `iptables-restore` ends it.
    #[error("ZeroByte")]
    ZeroByte,
    /// A `"` is not the first or the last byte of a quoted text, or a quoted text does not end.
    #[error("InnerQuote")]
    InnerQuote,
    /// A match on all ports is negated. With nf_tables its rule matches every port.
    #[error("AllPorts")]
    AllPorts,
    /// The text has no chain line of `FORWARD`, whose policy the legacy back end leaves unchanged.
    #[error("NoForward")]
    NoForward,
}

/// The first line that `iptables-restore` may read otherwise, counted from 1, and the reason. The
/// line of `NoForward` is the number of lines plus 1.
#[derive(Clone, Copy, Debug, PartialEq, Eq)]
pub struct PlainFault {
    pub line: u32,
    pub why: PlainWhy,
}

impl PlainWhy {
    /// Returns the name of the reason, as it is printed.
    pub fn name(self) -> &'static [u8]
        ensures { result.now ≡ name self }
    {
        match self {
            PlainWhy::LongLine => b"LongLine",
            PlainWhy::ZeroByte => b"ZeroByte",
            PlainWhy::InnerQuote => b"InnerQuote",
            PlainWhy::AllPorts => b"AllPorts",
            PlainWhy::NoForward => b"NoForward",
        }
    }
}
