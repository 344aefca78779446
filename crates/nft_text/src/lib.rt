//! The text of a table of nftables, as `nft -f` loads it and `nft list table` prints it, written
//! piece by piece.
#![tactic(auto)]

mod address;
mod compare;
mod element;
mod line;
mod pieces;
mod text;

pub use compare::{is_range_text, is_text_of};
pub use pieces::{PIECE_LIMIT, TextPieces};
pub use text::text_of;
