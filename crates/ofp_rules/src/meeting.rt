//! Contradictions between two entries.

ghost use Rattle.std.specs.Prelude.{◌≡◌, ◌↔◌, IsTrue};
ghost use Rattle.ofp_rules.specs.Ambiguity.{Contradict, MatchOneFrame};
ghost use Rattle.ofp_rules.specs.inner.Meeting.{entries_meet, kinds_meet, numbers_meet, packets_meet, parts_meet};
ghost use Rattle.ofp_rules.specs.inner.Ranges.{in_range};

use crate::entry::{Entry, FrameKind};
use host_net::Prefix;

impl Entry {
    /// Whether the two entries have equal priority and different actions, and match a common frame.
    pub(crate) fn contradicts(&self, other: &Entry) -> bool
        ensures { IsTrue result ↔ Contradict self.now other.now }
    {
        self.priority == other.priority && self.action != other.action && self.meets(other)
    }

    /// Whether both entries match a common frame.
    fn meets(&self, other: &Entry) -> bool
        ensures { IsTrue result ↔ MatchOneFrame self.now other.now }
    {
        entries_meet(*self, *other)
    }
}

fn entries_meet(entry: Entry, other: Entry) -> bool
    ensures exact { result ≡ entries_meet entry other }
    ensures entry { IsTrue (in_range entry) }
    ensures other { IsTrue (in_range other) }
{
    kinds_meet(entry.kind, other.kind, packets_meet(entry, other))
}

fn packets_meet(entry: Entry, other: Entry) -> bool
    ensures { result ≡ packets_meet entry other }
{
    protocols_meet(entry.proto, other.proto)
        && ports_meet(entry.tp_src, other.tp_src)
        && ports_meet(entry.tp_dst, other.tp_dst)
        && parts_meet(entry.src, other.src)
        && parts_meet(entry.dst, other.dst)
}

fn kinds_meet(kind: FrameKind, other: FrameKind, parts: bool) -> bool
    ensures { result ≡ kinds_meet kind other parts }
{
    match (kind, other) {
        (FrameKind::Any, _) | (_, FrameKind::Any) => true,
        (FrameKind::Arp, FrameKind::Arp) => true,
        (FrameKind::Ip, FrameKind::Ip) => parts,
        _ => false,
    }
}

fn parts_meet(part: Option<Prefix>, other: Option<Prefix>) -> bool
    ensures { result ≡ parts_meet part other }
{
    match (part, other) {
        (Some(p), Some(q)) => p.meets(&q),
        _ => true,
    }
}

fn protocols_meet(proto: Option<u8>, other: Option<u8>) -> bool
    ensures { result ≡ numbers_meet proto other }
{
    match (proto, other) {
        (Some(p), Some(q)) => p == q,
        _ => true,
    }
}

fn ports_meet(port: Option<u16>, other: Option<u16>) -> bool
    ensures { result ≡ numbers_meet port other }
{
    match (port, other) {
        (Some(p), Some(q)) => p == q,
        _ => true,
    }
}
