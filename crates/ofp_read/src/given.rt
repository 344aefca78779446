//! The fields of a flow line, and the partial entry that they yield.

use host_net::Prefix;
use ofp_rules::FrameKind;

/// The name of a field that has a value.
#[derive(Clone, Copy, Debug, PartialEq, Eq)]
pub(crate) enum Key {
    Priority,
    Table,
    FrameType,
    Source,
    Destination,
    Protocol,
    SourcePort,
    DestinationPort,
}

/// The partial entry that the fields so far yield, and whether the table was specified.
#[derive(Clone, Copy)]
pub(crate) struct Given {
    pub(crate) priority: Option<u16>,
    pub(crate) table: bool,
    pub(crate) kind: Option<FrameKind>,
    pub(crate) src: Option<Prefix>,
    pub(crate) dst: Option<Prefix>,
    pub(crate) proto: Option<u8>,
    pub(crate) tp_src: Option<u16>,
    pub(crate) tp_dst: Option<u16>,
}
