//! The exit status of a run, and its output streams.

ghost use Rattle.std.specs.Prelude.{◌≡◌};
ghost use Rattle.run_core.specs.inner.StatusNumber.{number_of};

/// The status of a run. Its number is the exit status of the program.
#[derive(Clone, Copy, Debug, PartialEq, Eq)]
pub enum Status {
    /// The whole text is on the output.
    Done,
    /// The arguments form no command.
    Usage,
    /// An invariant fails, or the rules differ from the policy.
    Violated,
    /// The description is refused.
    BadDescription,
    /// A file of rules, events or edits is rejected.
    BadText,
    /// The result cannot be emitted.
    NotEmittable,
    /// A file cannot be read.
    ReadFault,
    /// The output failed, after a prefix of the text.
    WriteFault,
    /// Memory allocation failed.
    Memory,
}

impl Status {
    /// Returns the exit status, from 0 to 8 in the order of the variants.
    pub fn number(&self) -> u8
        ensures { result ≡ number_of self.now }
    {
        match self {
            Status::Done => 0,
            Status::Usage => 1,
            Status::Violated => 2,
            Status::BadDescription => 3,
            Status::BadText => 4,
            Status::NotEmittable => 5,
            Status::ReadFault => 6,
            Status::WriteFault => 7,
            Status::Memory => 8,
        }
    }
}

/// The stream of a text.
#[derive(Clone, Copy)]
pub enum Stream {
    /// The output, for results.
    Output,
    /// The error stream, for the reasons why there is no result.
    Errors,
}
