//! Four templates that divide the hosts of a network into zones, each a rule on single flows:
//! sinks, security gateways, subnets, and communication partners. A host without an attribute has
//! the template's default, which is secure: a flow that does not pass still does not pass with the
//! default at its offending host.
#![tactic(auto)]

mod gateway;
mod kinds;
mod partners;
mod sink;
mod subnets;

pub use gateway::{GateKind, Gateway};
pub use partners::Partners;
pub use sink::{SinkKind, SinkRule};
pub use subnets::{NetKind, Subnets};
