//! What the programs share, generic over the file source (`Shelf`) and the two output sinks: forms
//! of a command line, files and their formats, dialects of rules, replies and their delivery. A
//! program is a table of commands over it: `topos_top` for `topos`, `query_top` for `topos-query`.
#![tactic(auto)]

mod answer;
mod dialect;
mod ending;
mod flow_policy;
mod format;
mod hindrance;
mod lines;
mod reading;
mod status;
mod text;
mod words;

pub use answer::Answer;
pub use dialect::{Dialect, Rules, RulesFault, TableWithChains, read_with_chains};
pub use ending::deliver;
pub use flow_policy::policy_between;
pub use format::{Format, too_long_description};
pub use hindrance::no_host_line;
pub use reading::{read_description, take};
pub use status::{Status, Stream};
pub use text::Text;
pub use words::{one_word, three_words, two_words};
