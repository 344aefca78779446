//! The domain hierarchy template, for example for the departments of an organisation: a host sends
//! to its own domain and to those below it. The template is access control: the offending host of a
//! flow that does not pass is its sender.
#![tactic(auto)]

mod domain;
mod domains;

pub use domains::Domains;
