//! Header matches: the ranges that a rule matches on. Narrowing by a match reduces a box until the
//! match selects all of its packets or none of them.

ghost use Rattle.std.specs.Prelude.{◌≡◌, ◌≤◌, ◌<◌, ◌^◌, ℕ, true, false};
ghost use Rattle.host_net.specs.declared.packet.Packet.{Packet};
ghost use Rattle.header_space.specs.Boxes.{IsBox, IsIn, Narrows};
ghost use Rattle.header_space.specs.Matching.{field_fits, field_may_fit, fits, range_fits, range_may_fit};
ghost use Rattle.header_space.specs.inner.Narrowing.{AllFit, AreEnds, OneFails};

use crate::packet_box::PacketBox;
use host_net::Packet;

/// A match on one field: a number from `low` to `high`, both included. A negated match selects the
/// other numbers.
#[derive(Clone, Copy, Debug, PartialEq, Eq)]
pub struct FieldMatch {
    pub low: u32,
    pub high: u32,
    pub negated: bool,
}

/// A match on the fields of a header. `None` matches every number of the field.
#[derive(Clone, Copy, Debug, PartialEq, Eq)]
pub struct HeaderMatch {
    pub src: Option<FieldMatch>,
    pub dst: Option<FieldMatch>,
    pub proto: Option<FieldMatch>,
    pub sport: Option<FieldMatch>,
    pub dport: Option<FieldMatch>,
}

/// Whether the first number of an interval matches, and the last number up to which this result is
/// the same.
#[derive(Clone, Copy)]
struct End {
    fits: bool,
    last: u32,
}

/// Returns whether the first number of an interval matches, and up to which number this is the same.
fn alike(asked: Option<FieldMatch>, first: u32, last: u32) -> End
    requires { first ≤ last }
    ensures first { first ≤ result.last }
    ensures last { result.last ≤ last }
    ensures alike { (n : ℕ) → first ≤ n → n ≤ result.last → field_fits asked n ≡ result.fits }
{
    match asked {
        None => End { fits: true, last },
        Some(range) => alike_by(range, first, last),
    }
}

fn alike_by(asked: FieldMatch, first: u32, last: u32) -> End
    requires { first ≤ last }
    ensures first { first ≤ result.last }
    ensures last { result.last ≤ last }
    ensures alike { (n : ℕ) → first ≤ n → n ≤ result.last → range_fits asked n ≡ result.fits }
{
    if first < asked.low {
        return End {
            fits: asked.negated,
            last: last.min(asked.low - 1),
        };
    }
    if asked.high < first {
        return End {
            fits: asked.negated,
            last,
        };
    }
    End {
        fits: !asked.negated,
        last: last.min(asked.high),
    }
}

/// Whether a number of an interval may match.
pub fn field_may_fit(asked: Option<FieldMatch>, first: u32, last: u32) -> bool
    ensures { result ≡ field_may_fit asked first last }
{
    match asked {
        None => true,
        Some(asked) => range_may_fit(asked, first, last),
    }
}

fn range_may_fit(asked: FieldMatch, first: u32, last: u32) -> bool
    ensures { result ≡ range_may_fit asked first last }
{
    if asked.negated {
        first < asked.low || asked.high < last
    } else {
        first <= asked.high && asked.low <= last
    }
}

/// Whether no number up to `last` matches.
fn rules_out(alike: End, last: u32) -> bool
    ensures { result ≡ true → (alike.fits ≡ false) × (alike.last ≡ last) }
{
    !alike.fits && alike.last == last
}

/// The end of each interval of a box for a match.
#[derive(Clone, Copy)]
struct Ends {
    src: End,
    dst: End,
    proto: End,
    sport: End,
    dport: End,
}

impl PacketBox {
    /// Narrows the box, which retains its least packet, until the match selects all of its packets or
    /// none of them. Returns whether it selects all.
    pub fn narrow_by(&mut self, asked: &HeaderMatch) -> bool
        requires { IsBox self.old }
        ensures part { Narrows self.old self.new }
        ensures alike { (p : Packet) → IsIn self.new p → fits asked.now p ≡ result }
    {
        let (least, greatest) = (self.least, self.greatest);
        let src = alike(asked.src, least.src, greatest.src);
        if rules_out(src, greatest.src) {
            return false;
        }
        let dst = alike(asked.dst, least.dst, greatest.dst);
        if rules_out(dst, greatest.dst) {
            return false;
        }
        let proto = alike(asked.proto, least.proto as u32, greatest.proto as u32);
        if rules_out(proto, greatest.proto as u32) {
            return false;
        }
        let sport = alike(asked.sport, least.sport as u32, greatest.sport as u32);
        if rules_out(sport, greatest.sport as u32) {
            return false;
        }
        let dport = alike(asked.dport, least.dport as u32, greatest.dport as u32);
        if rules_out(dport, greatest.dport as u32) {
            return false;
        }
        self.end(Ends {
            src,
            dst,
            proto,
            sport,
            dport,
        })
    }

    /// Ends the box before a failing field starts to match. If all fields match, ends it before a field
    /// starts to fail. Of several failing fields, chooses the protocol before a port and a port before an
    /// address, since this leaves fewer boxes.
    fn end(&mut self, ends: Ends) -> bool
        requires is_box { IsBox self.old }
        requires ends { AreEnds self.old ends }
        requires small { (ends.proto.last < 2 ^ 8) × (ends.sport.last < 2 ^ 16) × (ends.dport.last < 2 ^ 16) }
        ensures part { Narrows self.old self.new }
        ensures fit { result ≡ true → (p : Packet) → IsIn self.new p → AllFit self.old ends p }
        ensures fail { result ≡ false → (p : Packet) → IsIn self.new p → OneFails self.old ends p }
    {
        if !ends.proto.fits {
            self.greatest.proto = ends.proto.last as u8;
            return false;
        }
        if !ends.dport.fits {
            self.greatest.dport = ends.dport.last as u16;
            return false;
        }
        if !ends.sport.fits {
            self.greatest.sport = ends.sport.last as u16;
            return false;
        }
        if !ends.dst.fits {
            self.greatest.dst = ends.dst.last;
            return false;
        }
        if !ends.src.fits {
            self.greatest.src = ends.src.last;
            return false;
        }
        self.greatest = Packet {
            src: ends.src.last,
            dst: ends.dst.last,
            proto: ends.proto.last as u8,
            sport: ends.sport.last as u16,
            dport: ends.dport.last as u16,
        };
        true
    }
}
