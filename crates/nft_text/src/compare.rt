//! Comparison of bytes with the text of a table, without a copy of the text.

ghost use Rattle.std.specs.Prelude.{◌≡◌, ◌&&◌, bytes_eq, drop, false, IfNone, IfSome, length, take};
ghost use Rattle.nft_rules.specs.Loadable.{AreNamed};
ghost use Rattle.nft_text.specs.Text.{range_text, table_text};

use crate::address::put_range;
use crate::pieces::TextPieces;
use header_space::AddressRange;
use nft_rules::Table;

/// Whether the bytes are exactly the text of the table, whose chains have names as nft demands.
#[tactic(auto, using(crate::proofs::CompareLaws::same_behind, crate::proofs::CompareLaws::other_piece))]
pub fn is_text_of(bytes: &[u8], table: &Table) -> bool
    requires { AreNamed table.now.chains.items }
    ensures { result ≡ bytes_eq bytes.now (table_text table.now) }
{
    let mut pieces = TextPieces::new(table);
    let mut rest = bytes;
    let mut buffer = [0; 256];
    while let Some(length) = pieces.next_piece(&mut buffer) {
        match rest.strip_prefix(&buffer[..length]) {
            Some(behind) => rest = behind,
            None => return false,
        }
    }
    rest.is_empty()
}

/// Whether the bytes are exactly the text of the interval.
pub fn is_range_text(bytes: &[u8], range: AddressRange) -> bool
    ensures { result ≡ bytes_eq bytes.now (range_text range) }
{
    let mut buffer = [0; 256];
    let end = put_range(&mut buffer, 0, range);
    bytes == &buffer[..end]
}
