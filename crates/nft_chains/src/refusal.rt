//! Why a table has no rule set of iptables.

/// The limit of a rule set that the chains of a table exceed.
#[derive(Clone, Copy, Debug, PartialEq, Eq)]
pub enum ChainsRefusal {
    /// There are more than 4,096 chains, including the three built-in chains.
    TooManyChains,
    /// There are more than 1,000,000 rules.
    TooManyRules,
}
