//! The attributes of hosts, as a description assigns them: each template has its keys, types and
//! defaults. The assigns of an invariant are TOML tables; their result is the invariant, or the
//! number of the first assign that specifies no attribute.
#![tactic(auto)]

mod assign;
mod attribute_table;
mod blp;
mod dependability;
mod domains;
mod fault;
mod gateway;
mod invariant;
mod kinds;
mod may_have;
mod no_reach;
mod non_interference;
mod own_table;
mod partners;
mod peers;
mod shapes;
mod sink;
mod subnets;
mod tainting;
mod template;

pub use assign::Assign;
pub use fault::AttrFault;
pub use invariant::read_invariant;
pub use may_have::accepts_exactly_allowed_attributes;
pub use own_table::{bad_kind, kind_numbered, read_kinds};
pub use template::Template;
