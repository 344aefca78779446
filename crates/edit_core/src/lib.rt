//! Edits of a description, in sequence: the table after each edit and its policy, which a session
//! maintains.
#![tactic(auto)]

mod assigns;
mod behind;
mod edit;
mod fault;
mod flows;
mod in_place;
mod line;
mod run;
mod session;
mod summary;
mod table;
mod text;
mod values;

pub use edit::{Change, Edit};
pub use fault::{EditFault, EditWhy};
pub use run::EditRefusal;
pub use session::Session;
pub use summary::Summary;
pub use text::{EDITS_BYTE_LIMIT, EditsFault, read_edits};
/// The reason why an edit file is rejected.
pub use text_core::ListWhy as EditsWhy;
