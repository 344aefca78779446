//! Faults: for each kind of list, the packets at the end of whose list the rules differ from the policy. The
//! search proceeds by boxes of packets.

ghost use Rattle.std.specs.Prelude.{◌≡◌, IfOk, IsTrue};
ghost use Rattle.host_net.specs.declared.packet.Packet.{Packet};
ghost use Rattle.header_space.specs.Boxes.{every_packet};
ghost use Rattle.header_space.specs.Searching.{IsLeastWhere};
ghost use Rattle.host_net.specs.Packet.{IsPacket};
ghost use Rattle.audit_core.specs.Findings.{trace_of};
ghost use Rattle.audit_core.specs.inner.Faults.{AreRight, HasFault, IsFault, IsFaultOf, Wrong, state_in};
ghost use Rattle.audit_core.specs.declared.kind.Kind.{Kind};

use crate::finding::Trace;
use crate::kind::Kind;
use crate::part::Part;
use header_space::{Cut, PacketBox, Question, least_where};
use host_net::{CtState, Packet};
use std::alloc::{AllocError, Global};

/// Whether the rules differ from the policy at the end of the list of that kind or, for `None`, of any kind.
#[derive(Drop)]
struct Fault<'a> {
    part: Part<'a>,
    kind: Option<Kind>,
}

impl<'a> Question for Fault<'a> {
    ghost use Rattle.audit_core.specs.inner.Faults.{HasFault};

    ghost holds_of = { λ q p. HasFault q.part q.kind p };

    fn ask(&self, within: &mut PacketBox) -> bool {
        let flow = self.part.flow_within(within);
        match self.kind {
            None => self.part.has_fault(flow, within),
            Some(kind) => self.part.is_fault(kind, flow, within),
        }
    }

    fn restrict(&self, alloc: Global, within: &PacketBox) -> Result<Option<Fault<'a>>, AllocError> {
        match self.part.restrict(alloc, within)? {
            None => Ok(None),
            Some(part) => Ok(Some(Fault {
                part,
                kind: self.kind,
            })),
        }
    }

    fn cut(&self, within: &PacketBox) -> Option<Cut> {
        self.part.cut(within)
    }
}

/// Whether the rules are right about all packets. One search for all kinds of lists is faster than one for
/// each kind.
pub(crate) fn are_right(alloc: Global, sides: &Part<'_>) -> Result<bool, AllocError>
    ensures { IfOk result (λ right. IsTrue right → (kind : Kind) → AreRight sides.now kind) }
{
    let found = least_fault(alloc, sides, None)?;
    Ok(found.is_none())
}

/// Returns the least packet at the end of whose list the two sides differ, if there is one.
fn least_fault(
    alloc: Global,
    sides: &Part<'_>,
    kind: Option<Kind>,
) -> Result<Option<Packet>, AllocError>
    ensures { IfOk result (IsLeastWhere (HasFault sides.now kind) every_packet) }
{
    let fault = Fault {
        part: sides.by_ref(),
        kind,
    };
    least_where(alloc, &fault, PacketBox::every())
}

/// Returns the trace of that kind at the least packet at the end of whose list the two sides differ, if there
/// is one.
pub(crate) fn fault_of(
    alloc: Global,
    sides: &Part<'_>,
    kind: Kind,
) -> Result<Option<Trace>, AllocError>
    ensures { IfOk result (IsFaultOf sides.now kind) }
{
    match least_fault(alloc, sides, Some(kind))? {
        None => Ok(None),
        Some(packet) => Ok(Some(sides.trace_at(kind, packet))),
    }
}

pub(crate) fn state_in(kind: Kind) -> CtState
    ensures { result ≡ state_in kind }
{
    match kind {
        Kind::Alone => CtState::New,
        Kind::AfterSwap | Kind::AfterBoth => CtState::Established,
    }
}

impl<'a> Part<'a> {
    fn trace_at(&self, kind: Kind, packet: Packet) -> Trace
        requires packet { IsPacket packet }
        requires fault { IsFault self.now kind packet }
        ensures is { result ≡ trace_of kind packet result.forwards }
        ensures wrong { Wrong self.now kind packet result.forwards }
    {
        self.gives_one();
        let mut only = PacketBox {
            least: packet,
            greatest: packet,
        };
        let forwards = self.passes_within(&mut only, state_in(kind));
        Trace::of(kind, packet, forwards)
    }
}
