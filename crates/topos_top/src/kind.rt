//! The kinds of files that only this program reads, each with its format.

ghost use Rattle.run_core.specs.FileFormats.{FileFormat};
ghost use Rattle.topos_top.specs.inner.Formats.{format_of};

use edit_core::EDITS_BYTE_LIMIT;
use pkt_core::EVENTS_BYTE_LIMIT;
use run_core::{Answer, Dialect, Format, too_long_description};

/// The content of a file.
#[derive(Clone, Copy)]
pub enum Kind {
    /// Rules of a dialect.
    Rules(Dialect),
    /// A list of events.
    Events,
    /// A description to be migrated.
    Document,
    /// A description to be edited.
    Edited,
    /// A list of edits.
    Edits,
}

impl Format for Kind {
    ghost use Rattle.topos_top.specs.inner.Formats.{format_of as format_of_kind};

    ghost format_of = { format_of_kind };

    fn most(&self) -> usize {
        match self {
            Kind::Document | Kind::Edited => desc_core::BYTE_LIMIT,
            Kind::Rules(dialect) => dialect.byte_limit(),
            Kind::Events => EVENTS_BYTE_LIMIT,
            Kind::Edits => EDITS_BYTE_LIMIT,
        }
    }

    fn too_long<'a>(&self) -> Answer<'a> {
        match self {
            Kind::Document => too_long_description(),
            Kind::Edited => too_long_description(),
            Kind::Rules(_) => Answer::bad_text(b"rules", 0, b"TooLong"),
            Kind::Events => Answer::bad_text(b"events", 0, b"TooLong"),
            Kind::Edits => Answer::bad_text(b"edits", 0, b"TooLong"),
        }
    }
}
