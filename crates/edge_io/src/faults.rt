//! The errors of reading and writing.

/// The underlying file or stream failed and counted a fault, or the shelf has no file of this name.
#[derive(Clone, Copy, Debug, PartialEq, Eq)]
pub struct Failed;

/// A sink failed before it accepted all bytes.
#[derive(Clone, Copy, Debug, PartialEq, Eq)]
pub struct WriteFault;

/// The reason why reading a whole file failed.
#[derive(Clone, Copy, Debug, PartialEq, Eq)]
pub enum TakeFault {
    /// The shelf failed, or has no file of this name.
    Read,
    /// The file has more bytes than the limit.
    TooLong,
    /// Memory allocation failed.
    Memory,
}
