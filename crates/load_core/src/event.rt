//! The events of a load.

/// What a user, a timer or the next run of the loader asks for.
#[derive(Clone, Copy, Debug, PartialEq, Eq)]
pub enum Event {
    /// A user loads a text, and will be asked to confirm it.
    Load,
    /// A user loads a text without a question.
    Now,
    /// A user confirms the text that is pending.
    Confirm,
    /// A user or the timer goes back to the text before, or a run finds what an earlier one left half done.
    Back,
    /// A user removes the table.
    Remove,
}
