//! The formats of files, each with its size limit.

ghost use Rattle.std.specs.Prelude.{◌≡◌, ◌≤◌, ◌<◌, ◌^◌, ℕ, List, length};
ghost use Rattle.desc_form.specs.Refusals.{refused};
ghost use Rattle.report_core.specs.RefusalLine.{refusal_text};
ghost use Rattle.run_core.specs.FileFormats.{FileFormat, IsRefused};
ghost use Rattle.run_core.specs.Reply.{error};
ghost use Rattle.run_core.specs.inner.Views.{reply_view};

use crate::answer::Answer;
use crate::status::Status;
use desc_core::{DescFault, Place, Refusal, Why};

/// The format of a file.
pub trait Format {
    // The parse results of such a file, and the reasons to reject it.
    ghost format_of: { Self → FileFormat };

    /// Returns the size limit of such a file.
    fn most(&self) -> usize
        ensures most { result ≡ (format_of self.now).most }
        ensures small { result ≤ 2 ^ 26 };

    /// Returns the reply to a file above the limit.
    fn too_long<'a>(&self) -> Answer<'a>
        ensures { (bytes : List ℕ) → (format_of self.now).most < length bytes → IsRefused (format_of self.now) bytes (reply_view result) };
}

/// The description of a network.
#[derive(Clone, Copy)]
pub struct DescriptionFile;

impl Format for DescriptionFile {
    ghost use Rattle.run_core.specs.FileFormats.{description};

    ghost format_of = { λ _. description };

    fn most(&self) -> usize {
        desc_core::BYTE_LIMIT
    }

    fn too_long<'a>(&self) -> Answer<'a> {
        too_long_description()
    }
}

/// Returns the reply to a description above the limit.
pub fn too_long_description<'a>() -> Answer<'a>
    ensures { reply_view result ≡ error Status.BadDescription (refusal_text (refused Why.TooLong Place.Document)) }
{
    Answer::from(DescFault::Refused(Refusal::at(Why::TooLong, Place::Document)))
}
