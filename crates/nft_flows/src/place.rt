//! The places of a table.

/// The place of a rule of a table, or of an element of the verdict map of a rule.
#[derive(Clone, Copy, Debug, PartialEq, Eq)]
pub struct TablePlace {
    /// The index of the chain, from 0, or `None` for the base chain.
    pub chain: Option<u32>,
    /// The index of the rule in the chain, from 0.
    pub rule: u32,
    /// The index of the element in the verdict map of the rule, from 0, or `None` for a rule with matches.
    pub element: Option<u32>,
}
