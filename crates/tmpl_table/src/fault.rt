//! The reasons why a table has no rule.

ghost use Rattle.std.specs.Prelude.{◌≡◌};
ghost use Rattle.tmpl_table.specs.declared.fault.TableFault.TheVariants.{Memory};

use std::alloc::AllocError;

/// The reason why a table has no rule.
#[derive(Clone, Copy, PartialEq, Eq, Debug)]
pub enum TableFault {
    /// A denied pair has no denied partner: the same pair with the default at the offending host.
    /// `pair` is the index of the first such pair, from 0.
    NotLawful { pair: u64 },
    /// Memory allocation failed.
    Memory,
}

impl From<AllocError> for TableFault {
    ghost from_gives = { λ _ fault. fault ≡ Memory };

    fn from(_: AllocError) -> TableFault {
        TableFault::Memory
    }
}
