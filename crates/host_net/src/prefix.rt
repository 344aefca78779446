//! An IPv4 prefix: an address and the number of its significant bits. Its calls are in `covering`,
//! the parser is in `spelling`, and the formatter in `writing`.

ghost use Rattle.std.specs.Prelude.{◌≤◌};

mod covering;
mod spelling;
mod writing;

pub(crate) use covering::front;
pub use spelling::{read_address, read_prefix};
pub use writing::put_prefix;

/// An address in host byte order, and the number of its significant bits, at most 32. Bits after
/// the length are stored and ignored.
#[derive(Clone, Copy, Debug, PartialEq, Eq)]
pub struct Prefix {
    addr: u32,
    len: u8,
    pub ghost fits: { len ≤ 32 },
}
