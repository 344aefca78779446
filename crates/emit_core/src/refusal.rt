//! The reasons why a policy has no rules.

use flow_set::Flow;

/// The reason why a policy has no chains.
#[derive(Clone, Copy, Debug, PartialEq, Eq)]
pub enum NoChains {
    /// The chains would have more than 600,000 rules: `count`.
    TooManyRules { count: u32 },
    /// Memory allocation failed.
    Memory,
}

/// The reason why a policy has no flow table.
#[derive(Clone, Copy, Debug, PartialEq, Eq)]
pub enum NoTable {
    /// A permitted flow is restricted to a range of ports; `flow` is the first one. An entry
    /// matches one port, or every port.
    RangeOfPorts { flow: Flow },
    /// The table would have more than 8,192 entries: `count`.
    TooManyEntries { count: u32 },
    /// Memory allocation failed.
    Memory,
}

/// The reason why `emit_iptables` or `emit_openflow` emits nothing.
#[derive(Clone, Copy, Debug, PartialEq, Eq)]
pub enum EmitRefusal {
    /// A permitted flow has a service with a range of ports, and this flow is the first. Only a flow
    /// table is refused for this reason: an entry matches one port, or every port.
    RangeOfPorts { flow: Flow },
    /// The layout has more than 600,000 rules, or more than 8,192 entries of a flow table: `count`.
    TooManyRules { count: u32 },
    /// Memory allocation failed.
    Memory,
}
