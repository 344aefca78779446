//! The next entry that may match a frame, found in an index of the addresses that entries match on.

ghost use Rattle.std.specs.Prelude.{◌≡◌, List};
ghost use Rattle.host_net.specs.inner.CoverView.{IsIndexOf};
ghost use Rattle.ofp_rules.specs.declared.entry.Entry.{Entry};
ghost use Rattle.ofp_rules.specs.Matching.{matches};
ghost use Rattle.ofp_rules.specs.inner.Next.{IsNext, all_ends, destination_of, ends_of, source_of};

use crate::entry::{Entry, Frame, FrameKind};
use host_net::{Ends, TupleSpaceIndex};

impl Entry {
    /// Returns the prefixes that the entry matches on.
    pub(crate) fn ends(&self) -> Ends
        ensures { result ≡ ends_of self.now }
    {
        match self.kind {
            FrameKind::Any | FrameKind::Arp => Ends {
                src: None,
                dst: None,
            },
            FrameKind::Ip => Ends {
                src: self.src,
                dst: self.dst,
            },
        }
    }
}

fn source_of(frame: &Frame) -> u32
    ensures { result ≡ source_of frame.now }
{
    match *frame {
        Frame::Arp | Frame::Other => 0,
        Frame::Ipv4(packet) => packet.src,
    }
}

fn destination_of(frame: &Frame) -> u32
    ensures { result ≡ destination_of frame.now }
{
    match *frame {
        Frame::Arp | Frame::Other => 0,
        Frame::Ipv4(packet) => packet.dst,
    }
}

/// Returns the index of the first entry from index `from` that may match the frame. The skipped entries
/// do not match it.
pub(crate) fn next_entry(index: &TupleSpaceIndex, from: usize, frame: &Frame) -> Option<usize>
    ensures { (entries : List Entry) → IsIndexOf (all_ends entries) index.now → IsNext (matches frame.now) entries from result }
{
    index.first(from, source_of(frame), destination_of(frame))
}
