//! Flow tables of OpenFlow: entries, the verdict on a frame, and the text that `ovs-ofctl` loads.
#![tactic(auto)]

mod box_table;
mod deciders;
mod entry;
mod meeting;
mod next;
mod table;
mod text;

pub use entry::{Action, Entry, Frame, FrameKind};
pub use table::{ENTRY_LIMIT, Table, TableRefusal};
