//! The text of a table as one value, put together from its pieces.

ghost use Rattle.std.specs.Prelude.{◌≡◌, IfOk};
ghost use Rattle.nft_rules.specs.Loadable.{AreNamed};
ghost use Rattle.nft_text.specs.Text.{table_text};

use crate::pieces::TextPieces;
use nft_rules::Table;
use std::alloc::{AllocError, Global};

/// Returns the text of the table, whose chains have names as nft demands.
pub fn text_of(alloc: Global, table: &Table) -> Result<Vec<u8>, AllocError>
    requires { AreNamed table.now.chains.items }
    ensures { IfOk result (λ text. text.items ≡ table_text table.now) }
{
    let mut pieces = TextPieces::new(table);
    let mut text = Vec::new(alloc);
    let mut buffer = [0; 256];
    while let Some(length) = pieces.next_piece(&mut buffer) {
        text.extend_from_slice(&buffer[..length])?;
    }
    Ok(text)
}
