//! Ranges of services and packets as JSON, as several answers of `topos-query` have them. Their definitions are in
//! `specs/RangeJson.antt`.
#![tactic(auto)]

mod ranges;

pub use ranges::{push_header, push_header_or_null, push_range};
