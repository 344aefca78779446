//! Reading the open file of a shelf in memory from the position where the last read stopped.
ghost use Rattle.std.specs.Prelude.{◌≡◌, ◌+◌, ◌<◌, ◌^◌, Some, IsSomeAnd, slice_get, min, take, length};
ghost use Rattle.edge_io.specs.inner.Begun.{bytes_left, IsWithin};

use crate::stored_files::StoredFile;

/// The open file: its index, and the number of bytes read.
#[derive(Clone, Copy)]
pub(crate) struct Begun {
    pub(crate) place: usize,
    pub(crate) done: usize,
}

/// Returns the unread bytes of the open file.
pub(crate) fn bytes_left(stored: &[StoredFile], begun: Begun) -> &[u8]
    requires { IsWithin stored.now (Some begun) }
    ensures left { result.now ≡ bytes_left stored.now (Some begun) }
    ensures short { begun.done + length result.now < 2 ^ 63 }
    ensures within { IsSomeAnd (slice_get stored.now begun.place) (λ file.
        length file.bytes.items ≡ begun.done + length result.now) }
{
    &stored[begun.place].bytes[begun.done..]
}

/// Copies as many bytes as fit to the front of `into`, and returns their number.
pub(crate) fn move_front(bytes: &[u8], into: &mut [u8]) -> usize
    ensures count { result ≡ min (length into.new) (length bytes.now) }
    ensures moved { take result into.new ≡ take result bytes.now }
{
    let count = into.len().min(bytes.len());
    into[..count].copy_from_slice(&bytes[..count]);
    count
}
