//! The reply of the program to its arguments, before anything is written.

ghost use Rattle.std.specs.Prelude.{◌≡◌};
ghost use Rattle.run_core.specs.Reply.{no_memory, error};
ghost use Rattle.run_core.specs.TextFault.{fault_line};
ghost use Rattle.run_core.specs.inner.OutcomesReplies.{outcomes_reply};
ghost use Rattle.run_core.specs.inner.Views.{reply_in, reply_on, reply_view, text_view};

use crate::status::{Status, Stream};
use crate::text::Text;
use desc_core::{DescFault, Refusal};
use std::alloc::{AllocError, AllocFailed};

/// A reply: the exit status of the run, and a text for one of the two streams.
#[derive(Drop)]
pub struct Answer<'a> {
    pub status: Status,
    pub stream: Stream,
    pub text: Text<'a>,
}

impl<'a> Answer<'a> {
    /// Returns the requested text, on the output.
    pub fn done(text: Text<'a>) -> Answer<'a>
        ensures { reply_view result ≡ reply_on Status.Done Stream.Output (text_view text.entry) }
    {
        Answer {
            status: Status::Done,
            stream: Stream::Output,
            text,
        }
    }

    /// Returns the report of violations, on the output.
    pub fn reported(text: Text<'a>) -> Answer<'a>
        ensures { reply_view result ≡ reply_on Status.Violated Stream.Output (text_view text.entry) }
    {
        Answer {
            status: Status::Violated,
            stream: Stream::Output,
            text,
        }
    }

    /// Returns a reply with the reason why there is no result.
    pub fn error(status: Status, text: Text<'a>) -> Answer<'a>
        ensures { reply_view result ≡ error status (text_view text.entry) }
    {
        Answer {
            status,
            stream: Stream::Errors,
            text,
        }
    }

    /// Returns the reply to a rejected file: the kind of its content, the number of its bad line,
    /// or 0 for the whole file, and the reason.
    pub fn bad_text(text: &'static [u8], line: u32, reason: &'static [u8]) -> Answer<'a>
        ensures { reply_view result ≡ error Status.BadText (fault_line text.now line reason.now) }
    {
        Answer::error(Status::BadText, Text::Fault(text, line, reason))
    }

    /// Returns the reply to an allocation failure.
    pub fn no_memory() -> Answer<'a>
        ensures { reply_view result ≡ no_memory }
    {
        Answer::error(Status::Memory, Text::Fixed(b"topos: out of memory\n"))
    }

    /// Returns the reply of the outcomes of a command, or that memory for it ran out.
    pub fn of_outcomes(made: Result<Answer<'a>, AllocError>) -> Result<Answer<'a>, Answer<'a>>
        ensures { reply_in result ≡ outcomes_reply made.entry }
    {
        Ok(made?)
    }

    /// Returns the reply that a result cannot be emitted, with the reason.
    pub fn not_emittable(line: Vec<u8>) -> Answer<'a>
        ensures { reply_view result ≡ error Status.NotEmittable line.items }
    {
        Answer::error(Status::NotEmittable, Text::Bytes(line))
    }
}

impl<'a> From<DescFault> for Answer<'a> {
    ghost use Rattle.std.specs.Prelude.{◌≡◌};
    ghost use Rattle.run_core.specs.inner.Views.{description_reply, reply_view};

    ghost from_gives = { λ fault given. reply_view given ≡ description_reply fault };

    fn from(fault: DescFault) -> Self {
        match fault {
            DescFault::Refused(why) => { Answer::error(Status::BadDescription, Text::Refusal(why)) }
            DescFault::Memory => Answer::no_memory(),
        }
    }
}

impl<'a> From<AllocError> for Answer<'a> {
    ghost use Rattle.std.specs.Prelude.{◌≡◌};
    ghost use Rattle.run_core.specs.Reply.{no_memory};
    ghost use Rattle.run_core.specs.inner.Views.{reply_view};

    ghost from_gives = { λ _ given. reply_view given ≡ no_memory };

    fn from(_: AllocError) -> Self {
        Answer::no_memory()
    }
}

impl<'a, T: Drop> From<AllocFailed<T>> for Answer<'a> {
    ghost use Rattle.std.specs.Prelude.{◌≡◌};
    ghost use Rattle.run_core.specs.Reply.{no_memory};
    ghost use Rattle.run_core.specs.inner.Views.{reply_view};

    ghost from_gives = { λ _ given. reply_view given ≡ no_memory };

    fn from(_: AllocFailed<T>) -> Self {
        Answer::no_memory()
    }
}
