//! Cuts: a cut divides a box into two boxes after an address.

ghost use Rattle.std.specs.Prelude.{◌≡◌};
ghost use Rattle.header_space.specs.Boxes.{IsBox};
ghost use Rattle.header_space.specs.Cuts.{IsCutOf};
ghost use Rattle.header_space.specs.inner.Cutting.{lower, upper};

use crate::field::{Field, after, up_to};
use crate::packet_box::PacketBox;

/// The address after which a box is cut: a source or a destination.
#[derive(Clone, Copy, Debug, PartialEq, Eq)]
pub enum Cut {
    Src(u32),
    Dst(u32),
}

/// Returns the packets of a box up to the cut.
pub(crate) fn lower(whole: PacketBox, cut: Cut) -> PacketBox
    requires is_box { IsBox whole }
    requires cut { IsCutOf whole cut }
    ensures value { result ≡ lower whole cut }
    ensures is_box { IsBox result }
{
    match cut {
        Cut::Src(src) => up_to(Field::Src, whole, src),
        Cut::Dst(dst) => up_to(Field::Dst, whole, dst),
    }
}

/// Returns the packets of a box after the cut.
pub(crate) fn upper(whole: PacketBox, cut: Cut) -> PacketBox
    requires is_box { IsBox whole }
    requires cut { IsCutOf whole cut }
    ensures value { result ≡ upper whole cut }
    ensures is_box { IsBox result }
{
    match cut {
        Cut::Src(src) => after(Field::Src, whole, src),
        Cut::Dst(dst) => after(Field::Dst, whole, dst),
    }
}
