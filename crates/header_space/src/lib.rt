//! The header space: boxes of packets, the search for the least packet of a box that satisfies a
//! property, and the address ranges of each owner.
#![tactic(auto)]

mod address_range;
mod cut;
mod field;
mod header_match;
mod order;
mod owners;
mod packet_box;
mod search;
mod split;
mod visit;

pub use address_range::{AddressRange, box_between};
pub use cut::Cut;
pub use header_match::{FieldMatch, HeaderMatch, field_may_fit};
pub use owners::{Owned, all_owned, ranges_of};
pub use packet_box::PacketBox;
pub use search::{Question, least_before, least_where};
pub use visit::{Visitor, visit_all};
