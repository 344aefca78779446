//! The decisions of a load of nftables: which orders an event gives in which state of the table `ip topos`,
//! and the program `topos-step`, which prints them.
//!
//! The table has the chains of up to two texts, as generations `a` and `b`. Its base chain `forward` continues in one
//! of them, and says whether a user has confirmed it. The kernel holds that state; the caller reads it, and runs the
//! orders one by one. A caller may end between any two orders: the next event continues from what it finds.
#![tactic(auto)]

mod decision;
mod event;
mod line;
mod order;
mod program;
mod request;
mod state;
mod status;

pub use decision::step;
pub use event::Event;
pub use order::{ORDERS_MAX, Order, Refusal};
pub use program::run;
pub use state::{Forward, Generation, State};
pub use status::Status;
