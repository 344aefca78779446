//! The search for the least packet of a box that satisfies a property. The search tests the least
//! packet of a box and narrows the box until all of its packets have the same answer. It splits the
//! rest of the box into pending boxes. It skips each box whose least packet does not come before the
//! packet found.

ghost use Rattle.std.specs.Prelude.{◌↔◌, Bool, IsTrue, IfOk, IfSome};
ghost use Rattle.host_net.specs.declared.packet.Packet.{Packet};
ghost use Rattle.header_space.specs.Boxes.{IsBox, IsIn, Narrows};
ghost use Rattle.header_space.specs.Cuts.{IsCutOf};
ghost use Rattle.header_space.specs.Searching.{HoldsIn, Improves, IsLeastWhere};
ghost use Rattle.header_space.specs.inner.Splitting.{Tries};

use crate::cut::{Cut, lower, upper};
use crate::order::{found_then, is_earlier};
use crate::packet_box::PacketBox;
use crate::split::split;
use host_net::Packet;
use std::alloc::{AllocError, Global};

/// The maximum number of nested cuts of a box. Bisection at the middle boundary needs far fewer.
const DEPTH_LIMIT: u32 = 64;

/// The number of consecutive unprofitable restrictions after which the search tries no more.
const TRIES: u32 = 3;

/// A property of packets that is decided for boxes.
pub trait Question: Sized + Drop {
    ghost holds_of: { Self → Packet → Type 0 };

    /// Whether the property holds for the least packet of a box. Narrows the box until the answer is the
    /// same for all of its packets.
    fn ask(&self, within: &mut PacketBox) -> bool
        requires { IsBox within.old }
        ensures part { Narrows within.old within.new }
        ensures alike { (p : Packet) → IsIn within.new p → (IsTrue result ↔ holds_of self.now p) };

    /// Returns the question restricted to the packets of a box, if the restricted question is cheaper to
    /// ask. Both hold for the same packets of the box.
    fn restrict(&self, alloc: Global, within: &PacketBox) -> Result<Option<Self>, AllocError>
        requires { IsBox within.now }
        ensures { IfOk result (λ part. IfSome part (λ part. (p : Packet) → IsIn within.now p → (holds_of part p ↔ holds_of self.now p))) };

    /// Returns the cut of a box to make before the question is asked, or None to ask it of the whole box.
    fn cut(&self, within: &PacketBox) -> Option<Cut>
        ensures { IfSome result (IsCutOf within.now) };
}

/// Returns the least packet of a box for which the question holds, or None if there is none.
pub fn least_where<Q: Question>(
    alloc: Global,
    question: &Q,
    whole: PacketBox,
) -> Result<Option<Packet>, AllocError>
    requires { IsBox whole }
    ensures { IfOk result (IsLeastWhere (Q.holds_of question.now) whole) }
{
    least_before(alloc, question, whole, None)
}

/// Returns the least packet of a box for which the question holds, if it comes before the packet found so
/// far. Otherwise returns the packet found so far.
pub fn least_before<Q: Question>(
    alloc: Global,
    question: &Q,
    whole: PacketBox,
    found: Option<Packet>,
) -> Result<Option<Packet>, AllocError>
    requires { IsBox whole }
    ensures { IfOk result (Improves (HoldsIn (Q.holds_of question.now) whole) found) }
{
    least_after(alloc, question, whole, found, DEPTH_LIMIT, TRIES)
}

/// Searches a box for a packet that comes before the packet found so far. Cuts the box, nested at most
/// `depth` times, and restricts the question to the parts. Stops cutting after `tries` consecutive
/// unprofitable restrictions.
fn least_after<Q: Question>(
    alloc: Global,
    question: &Q,
    whole: PacketBox,
    found: Option<Packet>,
    depth: u32,
    tries: u32,
) -> Result<Option<Packet>, AllocError>
    requires { IsBox whole }
    ensures { IfOk result (Improves (HoldsIn (Q.holds_of question.now) whole) found) }
{
    if !is_earlier(&whole.least, found) {
        return Ok(found);
    }
    if depth == 0 || tries == 0 {
        return search(alloc, question, whole, found);
    }
    if let Some(part) = question.restrict(alloc, &whole)? {
        return least_after(alloc, &part, whole, found, depth - 1, TRIES);
    }
    let Some(cut) = question.cut(&whole) else {
        return search(alloc, question, whole, found);
    };
    let first = least_after(
        alloc,
        question,
        lower(whole, cut),
        found,
        depth - 1,
        tries - 1,
    )?;
    least_after(
        alloc,
        question,
        upper(whole, cut),
        first,
        depth - 1,
        tries - 1,
    )
}

/// Searches a box, without cuts, for a packet that comes before the packet found so far.
fn search<Q: Question>(
    alloc: Global,
    question: &Q,
    whole: PacketBox,
    found: Option<Packet>,
) -> Result<Option<Packet>, AllocError>
    requires { IsBox whole }
    ensures { IfOk result (Improves (HoldsIn (Q.holds_of question.now) whole) found) }
{
    let mut boxes = Vec::new(alloc);
    boxes.push(whole)?;
    let mut first = found;
    while let Some(next) = boxes.pop() {
        if is_earlier(&next.least, first) {
            let holds = try_box(question, &mut boxes, next)?;
            first = found_then(holds, next.least, first);
        }
    }
    Ok(first)
}

/// Whether the question holds for the least packet of a box. Adds boxes of the packets that this answer
/// does not cover to the pending boxes.
fn try_box<Q: Question>(
    question: &Q,
    boxes: &mut Vec<PacketBox>,
    whole: PacketBox,
) -> Result<bool, AllocError>
    requires { IsBox whole }
    ensures { IfOk result (Tries (Q.holds_of question.now) whole boxes.old.items boxes.new.items) }
{
    let mut part = whole;
    let holds = question.ask(&mut part);
    split(boxes, whole, part)?;
    Ok(holds)
}
