//! One line of text in a buffer of fixed size, assembled in parts and without allocation. Bytes
//! that do not fit are dropped, so a line is complete if it is short enough.

ghost use Rattle.std.specs.Prelude.{◌≡◌, ◌+◌, ◌<◌, ◌≤◌, ◌++◌, ◌∷◌, [], take, decimal};
ghost use Rattle.text_core.specs.inner.Line.{cut};

/// Writes a piece after the first `at` bytes, and returns the end of the text. The rest of the
/// buffer is unspecified.
#[inline(always)]
pub fn put<const N: usize>(buffer: &mut [u8; N], at: usize, piece: &[u8]) -> usize
    requires { at ≤ N }
    ensures text { take result buffer.new ≡ cut N (take at buffer.old ++ piece.now) }
    ensures within { result ≤ N }
{
    let line = &mut buffer[..];
    let room = line.len() - at;
    // A piece that fits is copied by its own length, so a literal needs no loop.
    if piece.len() <= room {
        line[at..at + piece.len()].copy_from_slice(piece);
        return at + piece.len();
    }
    line[at..at + room].copy_from_slice(&piece[..room]);
    at + room
}

/// Writes a number in decimal digits after the first `at` bytes, like `put`.
#[inline(always)]
pub fn put_number<const N: usize>(buffer: &mut [u8; N], at: usize, number: u64) -> usize
    requires { at ≤ N }
    ensures text { take result buffer.new ≡ cut N (take at buffer.old ++ decimal number) }
    ensures within { result ≤ N }
{
    if number < 1000 {
        return put_short(buffer, at, number);
    }
    put_long(buffer, at, number)
}

/// The same for a number with any number of digits.
fn put_long<const N: usize>(buffer: &mut [u8; N], at: usize, number: u64) -> usize
    requires { at ≤ N }
    ensures text { take result buffer.new ≡ cut N (take at buffer.old ++ decimal number) }
    ensures within { result ≤ N }
{
    if number < 1000 {
        return put_short(buffer, at, number);
    }
    let front = put_long(buffer, at, number / 10);
    put_byte(buffer, front, digit(number % 10))
}

/// The same for a number with up to three digits.
#[inline(always)]
fn put_short<const N: usize>(buffer: &mut [u8; N], at: usize, number: u64) -> usize
    requires fits { at ≤ N }
    requires small { number < 1000 }
    ensures text { take result buffer.new ≡ cut N (take at buffer.old ++ decimal number) }
    ensures within { result ≤ N }
{
    if number < 10 {
        return put_byte(buffer, at, digit(number));
    }
    let front = put_pair(buffer, at, number / 10);
    put_byte(buffer, front, digit(number % 10))
}

/// The same for a number with one or two digits.
#[inline(always)]
fn put_pair<const N: usize>(buffer: &mut [u8; N], at: usize, number: u64) -> usize
    requires fits { at ≤ N }
    requires small { number < 100 }
    ensures text { take result buffer.new ≡ cut N (take at buffer.old ++ decimal number) }
    ensures within { result ≤ N }
{
    if number < 10 {
        return put_byte(buffer, at, digit(number));
    }
    let front = put_byte(buffer, at, digit(number / 10));
    put_byte(buffer, front, digit(number % 10))
}

/// Writes a single byte, like `put`, but by its value: one store, without a slice.
#[inline(always)]
fn put_byte<const N: usize>(buffer: &mut [u8; N], at: usize, byte: u8) -> usize
    requires { at ≤ N }
    ensures text { take result buffer.new ≡ cut N (take at buffer.old ++ byte ∷ []) }
    ensures within { result ≤ N }
{
    let line = &mut buffer[..];
    if at == line.len() {
        return at;
    }
    line[at] = byte;
    at + 1
}

#[inline(always)]
fn digit(number: u64) -> u8
    requires { number < 10 }
    ensures { result ≡ 48 + number }
{
    b'0' + number as u8
}
