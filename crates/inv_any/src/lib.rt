//! One of the ten templates, or a declared one: the type of an invariant whose template is chosen
//! at run time.
#![tactic(auto)]

mod any_inv;
mod any_trial;
mod defaults;

pub use any_inv::AnyInv;
pub use any_trial::AnyTrial;
pub use defaults::{hosts_may_have_the_default, only_default_is_secure};
