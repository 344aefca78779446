//! Hosts of a network and the packets between them: IPv4 prefixes, packets, host names, the list of
//! hosts with the owner of each address, the services to which flows are restricted, and an index
//! of the prefixes of rules. All crates above use these types for addresses.
#![tactic(auto)]

mod addresses;
mod hosts;
mod name;
mod overlap;
mod packet;
mod prefix;
mod ranges;
mod refusal;
mod service;
mod services;
mod tuple_space;

pub use hosts::Hosts;
pub use name::Name;
pub use packet::{CtState, Packet, Verdict};
pub use prefix::{Prefix, put_prefix, read_address, read_prefix};
pub use ranges::Held;
pub use refusal::{HOST_LIMIT, HostRefusal, INVARIANT_LIMIT, PREFIX_LIMIT};
pub use service::{LAST_PORT, Service, read_port, read_protocol, read_service};
pub use services::{SERVICE_LIMIT, Services};
pub use tuple_space::{Ends, TupleSpaceIndex};
