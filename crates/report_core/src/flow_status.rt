//! The status of a flow under a policy.

/// The status of a flow.
#[derive(Clone, Copy)]
pub(crate) enum FlowStatus {
    /// The flow is permitted, and so are its answers.
    Answered,
    /// The flow is permitted, but its answers are not.
    Allowed,
    /// The flow is not requested.
    NotAsked,
    /// The flow is requested, but violates the invariant with this number, from 0.
    Denied(u16),
}
