//! The kinds of changes.

/// How a packet changes from an old policy to a new one.
#[derive(Clone, Copy, Debug, PartialEq, Eq)]
pub enum ChangeKind {
    /// The new policy permits the packet, and the old policy does not.
    FlowComes,
    /// The old policy permits the packet, and the new policy does not.
    FlowGoes,
    /// The new policy permits answers to the packet, and the old policy does not.
    AnswersCome,
    /// The old policy permits answers to the packet, and the new policy does not.
    AnswersGo,
}
