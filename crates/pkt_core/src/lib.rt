//! Events at a firewall and connection tracking, which distinguishes the answers of a connection
//! from new packets. The expected result for each packet is defined over the events only, and
//! tracking is proved to produce exactly this result.
#![tactic(auto)]

mod connection;
mod event;
mod events;
mod flow_policy;
mod laws;
mod track;

pub use connection::Connection;
pub use event::Event;
pub use events::{EVENTS_BYTE_LIMIT, EventFault, read_events};
pub use flow_policy::FlowPolicy;
pub use laws::tracked_states_are_sound;
/// The reason why an event file is rejected.
pub use text_core::ListWhy as EventWhy;
pub use track::Track;
