//! A short string in an array of fixed size, so it is copied without allocation.

ghost use Rattle.std.specs.Prelude.{◌≡◌, ◌≤◌, ◌++◌, drop, length};
ghost use Rattle.text_core.specs.inner.Padded.{padded};

/// Returns the bytes of a text, followed by zeros.
pub fn padded<const N: usize>(text: &[u8]) -> [u8; N]
    requires { length text.now ≤ N }
    ensures { result ≡ padded N text.now }
{
    let mut bytes = [0; N];
    put_in_front(&mut bytes, text);
    bytes
}

fn put_in_front<const N: usize>(bytes: &mut [u8; N], text: &[u8])
    requires { length text.now ≤ N }
    ensures { bytes.new ≡ text.now ++ drop (length text.now) bytes.old }
{
    let room = &mut bytes[..];
    room[0..text.len()].copy_from_slice(text);
}
