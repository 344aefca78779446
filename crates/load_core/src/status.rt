//! The exit status of a run.

ghost use Rattle.std.specs.Prelude.{◌≡◌};
ghost use Rattle.load_core.specs.Program.{number_of};

/// How a run of `topos-step` ends.
#[derive(Clone, Copy, Debug, PartialEq, Eq)]
pub enum Status {
    /// All orders are on the output.
    Done,
    /// The output failed, after a prefix of the orders.
    WriteFault,
    /// Memory for the words is exhausted.
    Memory,
    /// The words are not an event and a state that a table may have.
    Usage,
    /// The event is refused in this state.
    Refused,
}

impl Status {
    /// Returns the exit status.
    pub fn number(self) -> u8
        ensures { result ≡ number_of self }
    {
        match self {
            Status::Done => 0,
            Status::WriteFault => 7,
            Status::Memory => 8,
            Status::Usage => 64,
            Status::Refused => 69,
        }
    }
}
