//! The orders that an event gives, and why an event is refused.

use crate::state::Generation;

/// The greatest number of orders that an event gives.
pub const ORDERS_MAX: usize = 6;

/// One change of the table. It happens whole or not at all.
#[derive(Clone, Copy, Debug, PartialEq, Eq)]
pub enum Order {
    /// Add the chains of the text that is loaded, as this generation.
    Write(Generation),
    /// Let `forward` continue in the generation, pending. `forward` is created if there is none.
    Switch(Generation),
    /// Let `forward` continue in the generation, kept.
    Keep(Generation),
    /// Remove the chains of the generation.
    Erase(Generation),
    /// Remove the table.
    Remove,
}

impl Default for Order {
    fn default() -> Order {
        Order::Remove
    }
}

/// Why an event gives no orders.
#[derive(Clone, Copy, Debug, PartialEq, Eq)]
pub enum Refusal {
    /// Nothing is pending, so nothing can be confirmed.
    NothingPending,
    /// There is no table, so nothing can be removed.
    NoTable,
}
