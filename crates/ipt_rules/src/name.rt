//! The name of a user chain: a short string that is `Copy`.

ghost use Rattle.std.specs.Prelude.{◌≡◌, ◌-◌, ◌≤◌, ◌↔◌, ◌++◌, length, replicate, IsTrue, IsSome, IfSome};
ghost use Rattle.std.specs.List.{list_all};
ghost use Rattle.ipt_rules.specs.Name.{is_user_name, is_printing, is_reserved, begins_as_option, has_name_length};

use crate::chain::Head;
use std::marker::Model;
use text_core::padded;

const NAME_LIMIT: usize = 64;

/// A legal user chain name: 1 to 64 printable bytes without blanks.
#[derive(Clone, Copy)]
pub struct ChainName {
    bytes: [u8; 64],
    len: u8,
}

impl Model for ChainName {
    ghost use Rattle.std.specs.Prelude.{ℕ, IsTrue, List, length, take};
    ghost use Rattle.ipt_rules.specs.Name.{is_user_name};
    ghost use Rattle.text_core.specs.inner.Padded.{IsPadded, padded, padded_bytes, padded_len};

    ghost Value = { List ℕ };

    ghost view = { λ n. take n.len n.bytes };

    ghost invariant = { λ n. IsPadded 64 n.len n.bytes × IsTrue (is_user_name (take n.len n.bytes)) };

    ghost inverse = { λ name. record { bytes = padded 64 name; len = length name } };

    ghost inverse_ok = { λ n stored i. record { bytes = padded_bytes 64 n.len n.bytes stored.0 i; len = padded_len 64 n.len n.bytes stored.0 i } };
}

impl ChainName {
    /// Returns the name, or `None` if the text is not legal: a byte outside 33 to 126, a first byte `-` or
    /// `!`, the name of a built-in chain or of a target, or not 1 to 64 bytes.
    #[tactic(auto, using(crate::proofs::NameLemmas::user_name_fits))]
    pub fn new(text: &[u8]) -> Option<ChainName>
        ensures legal { IsSome result ↔ IsTrue (is_user_name text.now) }
        ensures value { IfSome result (λ name. name ≡ text.now) }
    {
        if !is_user_name(text) {
            return None;
        }
        Some(ChainName {
            bytes: padded(text),
            len: text.len() as u8,
        })
    }

    /// Returns the head of the user chain with this name.
    pub(crate) fn head(self) -> Head
        ensures head { result ≡ Head.User self }
        ensures legal { IsTrue (is_user_name self) }
    {
        // Access to a field makes the invariant available: the name is legal.
        let _ = &self.len;
        Head::User(self)
    }

    pub(crate) fn bytes(&self) -> &[u8]
        ensures value { result.now ≡ self.now }
        ensures legal { IsTrue (is_user_name self.now) }
    {
        &self.bytes[..self.len as usize]
    }
}

#[tactic(auto, unfolding(crate::specs::Name::is_user_name))]
fn is_user_name(text: &[u8]) -> bool
    ensures { result ≡ is_user_name text.now }
{
    has_name_length(text) && has_name_bytes(text) && !begins_as_option(text) && !is_reserved(text)
}

fn has_name_length(text: &[u8]) -> bool
    ensures { result ≡ has_name_length text.now }
{
    text.len() >= 1 && text.len() <= NAME_LIMIT
}

fn has_name_bytes(text: &[u8]) -> bool
    ensures { result ≡ list_all is_printing text.now }
{
    text.iter().all(|b| *b >= 33 && *b <= 126)
}

fn begins_as_option(text: &[u8]) -> bool
    ensures { result ≡ begins_as_option text.now }
{
    match text {
        [first, ..] => *first == b'-' || *first == b'!',
        [] => false,
    }
}

#[tactic(auto, unfolding(crate::specs::Name::is_reserved))]
fn is_reserved(text: &[u8]) -> bool
    ensures { result ≡ is_reserved text.now }
{
    text == b"INPUT".as_slice()
        || text == b"FORWARD".as_slice()
        || text == b"OUTPUT".as_slice()
        || text == b"ACCEPT".as_slice()
        || text == b"DROP".as_slice()
        || text == b"REJECT".as_slice()
        || text == b"RETURN".as_slice()
        || text == b"LOG".as_slice()
        || text == b"QUEUE".as_slice()
}
