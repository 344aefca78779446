//! The form of a description, before name resolution: the keys of its tables, the types of their
//! values, and the raw description. This crate also defines the refusals of a description, since
//! their order begins with the form.
#![tactic(auto)]

mod duplicates;
mod entries;
mod flows;
mod host_conditions;
mod hosts;
mod keys;
mod name_uses;
mod names;
mod places;
mod raw;
mod refusal;
mod sizes;
mod well_formed;

pub use host_conditions::host_refusal;
pub use hosts::read_hosts;
pub use name_uses::{NameUse, used_names};
pub use places::{assigns_of, listed};
pub use raw::{
    RawAssign, RawDescription, RawFlow, RawHost, RawInvariant, RawPair, RawTemplate, read_raw,
    text_in,
};
pub use refusal::{Place, Refusal, Why};
pub use well_formed::form_refusal;
