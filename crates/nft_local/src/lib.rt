//! The table of nftables for the machines of one host: the layout of the flows that the host is an
//! end of, and chains that continue in it with the packets of the host's own addresses.
#![tactic(auto)]

mod entries;
mod laws;
mod local;
mod machine;
mod own;
mod part;
mod text;

pub use laws::machine_text_has_one_table;
pub use local::{local_table, local_table_text};
