//! The verdict of rules on the last packet of a list, and the expectation of a policy, for the packets of a
//! box.

ghost use Rattle.std.specs.Prelude.{◌≡◌, ◌↔◌, Bool, IsTrue, Option, None, IfOk, IfSome};
ghost use Rattle.host_net.specs.declared.packet.Packet.{Packet};
ghost use Rattle.host_net.specs.declared.packet.CtState.TheVariants.{New};
ghost use Rattle.host_net.specs.Packet.{IsPacket, swap_of};
ghost use Rattle.header_space.specs.Boxes.{IsBox, IsIn, Narrows};
ghost use Rattle.header_space.specs.Cuts.{IsCutOf};
ghost use Rattle.rules_space.specs.Rules.{filter_of};
ghost use Rattle.audit_core.specs.declared.difference.Direction.{Direction};
ghost use Rattle.policy_space.specs.inner.Flows.{HaveFlow};
ghost use Rattle.audit_core.specs.inner.Faults.{expected_at};
ghost use Rattle.audit_core.specs.inner.Pairs.{DiffersBy, DiffersSo, EndsBy, HaveSameEnds, HoldsOf, state_after};

use crate::difference::Direction;
use crate::kind::Kind;
use crate::part::Part;
use flow_set::Flow;
use header_space::{Cut, PacketBox, Question};
use host_net::CtState;
use std::alloc::{AllocError, Global};

/// The two sides for packets, and for the swaps of these packets.
#[derive(Drop)]
pub(crate) struct Ends<'a> {
    part: Part<'a>,
    swaps: Part<'a>,
}

/// Whether the two sides differ at the end of a list at a packet, in that direction or, for `None`, in any
/// direction.
#[derive(Drop)]
pub(crate) struct ListEnd<'a> {
    pub(crate) ends: Ends<'a>,
    pub(crate) direction: Option<Direction>,
}

impl<'a> Question for ListEnd<'a> {
    ghost use Rattle.audit_core.specs.inner.Pairs.{HoldsOf};

    ghost holds_of = { λ q p. HoldsOf q.ends q.direction p };

    fn ask(&self, within: &mut PacketBox) -> bool {
        match self.direction {
            None => self.ends.any_differs(within),
            Some(direction) => self.ends.differs(direction, within),
        }
    }

    fn restrict(
        &self,
        alloc: Global,
        within: &PacketBox,
    ) -> Result<Option<ListEnd<'a>>, AllocError> {
        match self.ends.restrict(alloc, within)? {
            None => Ok(None),
            Some(ends) => Ok(Some(ListEnd {
                ends,
                direction: self.direction,
            })),
        }
    }

    fn cut(&self, within: &PacketBox) -> Option<Cut> {
        self.ends.part.cut(within)
    }
}

impl<'a> Part<'a> {
    /// Returns the two sides, with the same rules for packets and for their swaps.
    pub(crate) fn ends(&self) -> Ends<'_>
        ensures { (direction : Option Direction) (p : Packet) → IsPacket p → (HoldsOf result direction p ↔ DiffersSo self.now direction p) }
    {
        self.gives_one();
        Ends {
            part: self.by_ref(),
            swaps: self.by_ref(),
        }
    }
}

impl<'a> Ends<'a> {
    /// Returns the same sides, with borrowed slices of the rules.
    pub(crate) fn by_ref(&self) -> Ends<'_>
        ensures { (direction : Option Direction) (p : Packet) → (HoldsOf result direction p ↔ HoldsOf self.now direction p) }
    {
        Ends {
            part: self.part.by_ref(),
            swaps: self.swaps.by_ref(),
        }
    }

    /// Returns the sides with the slices of the rules for the packets of a box and for their swaps, if both
    /// slices are worth their cost.
    pub(crate) fn restrict(
        &self,
        alloc: Global,
        within: &PacketBox,
    ) -> Result<Option<Ends<'a>>, AllocError>
        ensures { IfOk result (λ ends. IfSome ends (HaveSameEnds within.now self.now)) }
    {
        let Some(part) = self.part.restrict(alloc, within)? else {
            return Ok(None);
        };
        let Some(swaps) = self.swaps.restrict(alloc, &within.swap())? else {
            return Ok(None);
        };
        Ok(Some(Ends { part, swaps }))
    }

    /// Whether the two sides differ at the end of a list of any kind.
    fn any_differs(&self, within: &mut PacketBox) -> bool
        requires { IsBox within.old }
        ensures part { Narrows within.old within.new }
        ensures alike { (p : Packet) → IsIn within.new p → (IsTrue result ↔ HoldsOf self.now None p) }
    {
        let flow = self.part.flow_within(within);
        if self.kind_differs(Kind::Alone, flow, within) {
            return true;
        }
        if self.kind_differs(Kind::AfterSwap, flow, within) {
            return true;
        }
        self.kind_differs(Kind::AfterBoth, flow, within)
    }

    fn kind_differs(&self, kind: Kind, flow: Option<Flow>, within: &mut PacketBox) -> bool
        requires is_box { IsBox within.old }
        requires flow { HaveFlow self.now.part.policy.site.hosts within.old flow }
        ensures part { Narrows within.old within.new }
        ensures alike { (p : Packet) → IsIn within.new p → (IsTrue result ↔ ((forwards : Bool) × DiffersBy self.now kind p forwards)) }
    {
        self.part.gives_one();
        self.swaps.gives_one();
        let expected = self.part.expects(kind, flow, within);
        let passes = self.passes(kind, within);
        // This call makes known that packets of a box are packets.
        let _last = within.last();
        passes != expected
    }

    fn differs(&self, direction: Direction, within: &mut PacketBox) -> bool
        requires { IsBox within.old }
        ensures part { Narrows within.old within.new }
        ensures alike { (p : Packet) → IsIn within.new p → (IsTrue result ↔ DiffersBy self.now direction.kind p direction.forwards) }
    {
        self.part.gives_one();
        self.swaps.gives_one();
        let flow = self.part.flow_within(within);
        let expected = self.part.expects(direction.kind, flow, within);
        // This call makes known that packets of a box are packets.
        let _last = within.last();
        if expected == direction.forwards {
            return false;
        }
        self.passes(direction.kind, within) == direction.forwards
    }

    /// Whether the rules forward the packets of a box at the end of their lists of that kind.
    fn passes(&self, kind: Kind, within: &mut PacketBox) -> bool
        requires { IsBox within.old }
        ensures part { Narrows within.old within.new }
        ensures alike { (p : Packet) → IsIn within.new p → EndsBy self.now.part.rules self.now.swaps.rules kind p result }
    {
        match kind {
            Kind::Alone => self.part.passes_within(within, CtState::New),
            Kind::AfterSwap => self.passes_behind_swap(within),
            Kind::AfterBoth => self.passes_behind_both(within),
        }
    }

    fn passes_behind_swap(&self, within: &mut PacketBox) -> bool
        requires { IsBox within.old }
        ensures part { Narrows within.old within.new }
        ensures alike { (p : Packet) → IsIn within.new p → EndsBy self.now.part.rules self.now.swaps.rules Kind.AfterSwap p result }
    {
        let passed = self.swap_passes(within);
        self.part.passes_within(within, state_after(passed))
    }

    fn passes_behind_both(&self, within: &mut PacketBox) -> bool
        requires { IsBox within.old }
        ensures part { Narrows within.old within.new }
        ensures alike { (p : Packet) → IsIn within.new p → EndsBy self.now.part.rules self.now.swaps.rules Kind.AfterBoth p result }
    {
        let first = self.part.passes_within(within, CtState::New);
        let passed = self.swap_passes(within);
        self.part
            .passes_within(within, state_after(first || passed))
    }

    /// Whether the rules forward the swaps of the packets of a box, as new packets.
    fn swap_passes(&self, within: &mut PacketBox) -> bool
        requires { IsBox within.old }
        ensures part { Narrows within.old within.new }
        ensures passes { (p : Packet) → IsIn within.new p → filter_of self.now.swaps.rules New (swap_of p) result }
    {
        let mut swaps = within.swap();
        let passes = self.swaps.passes_within(&mut swaps, CtState::New);
        *within = swaps.swap();
        passes
    }
}

/// Returns the state of a packet after its swap, which passed or did not.
fn state_after(passed: bool) -> CtState
    ensures { result ≡ state_after passed }
{
    if passed {
        CtState::Established
    } else {
        CtState::New
    }
}
