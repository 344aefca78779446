//! One assign of an invariant.

use toml::Table;

/// An assign of an attribute to a host.
#[derive(Clone, Copy)]
pub struct Assign<'a> {
    /// The number of the host, from 0.
    pub host: u16,
    /// The table with the attribute; the key `host` has the name of the host.
    pub table: &'a Table,
}
