//! The reasons why a file is no ruleset.

ghost use Rattle.std.specs.Prelude.{◌≡◌};
ghost use Rattle.ipt_read.specs.TextLines.{rules_reason};

use text_core::{LineFault, TextFault};
use thiserror::Error;

/// The reason why a line is rejected at its position, or why a file is rejected as a whole.
#[derive(Clone, Copy, Debug, PartialEq, Eq, Error)]
pub enum IptWhy {
    /// The file has more than 67,108,864 bytes. The line is 0.
    #[error("TooLong")]
    TooLong,
    /// The line has none of the forms that are allowed at its position. In a rule line: the
    /// counters are invalid, or `-A` and a chain do not follow; an option that is allowed once is
    /// repeated; a `!` is the last word, or precedes an option that cannot be negated.
    #[error("BadLine")]
    BadLine,
    /// The table is not `filter`.
    #[error("OtherTable")]
    OtherTable,
    /// A chain line has an invalid name, policy or counters, or its chain already has a chain line.
    #[error("BadChain")]
    BadChain,
    /// The rule is of a user chain without a chain line before it.
    #[error("UnknownChain")]
    UnknownChain,
    /// The line has an interface match, which is not supported.
    #[error("Interface")]
    Interface,
    /// A word is not an option that is allowed at its position, or it is a module that is not
    /// supported there.
    #[error("UnknownOption")]
    UnknownOption,
    /// A value of an option is invalid or missing.
    #[error("BadValue")]
    BadValue,
    /// The target is unknown, a built-in chain, or a chain without a chain line before the rule.
    #[error("UnknownTarget")]
    UnknownTarget,
    /// Jumps form a cycle. The line is the chain line of the first chain on a cycle.
    #[error("Loop")]
    Loop,
    /// The file ends without `COMMIT`. The line is the one after the last line.
    #[error("NoCommit")]
    NoCommit,
    /// A line follows `COMMIT`.
    #[error("AfterCommit")]
    AfterCommit,
    /// The line has the 4,097th chain, or the 1,000,001st rule.
    #[error("TooMany")]
    TooMany,
}

impl IptWhy {
    /// Returns the name of the reason, as it is printed.
    pub fn name(self) -> &'static [u8]
        ensures { result.now ≡ rules_reason self }
    {
        match self {
            IptWhy::TooLong => b"TooLong",
            IptWhy::BadLine => b"BadLine",
            IptWhy::OtherTable => b"OtherTable",
            IptWhy::BadChain => b"BadChain",
            IptWhy::UnknownChain => b"UnknownChain",
            IptWhy::Interface => b"Interface",
            IptWhy::UnknownOption => b"UnknownOption",
            IptWhy::BadValue => b"BadValue",
            IptWhy::UnknownTarget => b"UnknownTarget",
            IptWhy::Loop => b"Loop",
            IptWhy::NoCommit => b"NoCommit",
            IptWhy::AfterCommit => b"AfterCommit",
            IptWhy::TooMany => b"TooMany",
        }
    }
}

/// The reason why a file is no ruleset: the first line that is rejected at its position, counted
/// from 1, and the reason. `TooLong`, `NoCommit` and `Loop` are reasons of the whole file. Their
/// lines are 0, the number of lines plus 1, and the chain line of the first chain on a cycle.
/// `Loop` is the reason only if the file has no other.
pub type IptFault = TextFault<IptWhy>;

pub(crate) fn bad(why: IptWhy) -> LineFault<IptWhy>
    ensures { result ≡ LineFault.Bad why }
{
    LineFault::Bad(why)
}
