//! The strategy of an invariant, which determines the offending host of a flow.

/// The asset that an invariant protects.
#[derive(Clone, Copy, Debug, PartialEq, Eq)]
pub enum Strategy {
    /// A receiver is protected from its senders: the offending host of a flow is the sender.
    Access,
    /// A sender's information is protected from its receivers: the offending host of a flow is the
    /// receiver.
    Information,
}
