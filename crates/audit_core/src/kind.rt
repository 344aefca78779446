//! The three kinds of list of events that decide an audit.

/// A list of seen packets that ends with a packet: the packet only, after its swap, or after itself and its
/// swap.
#[derive(Clone, Copy, Debug, PartialEq, Eq)]
pub enum Kind {
    Alone,
    AfterSwap,
    AfterBoth,
}
