//! The name of a host, stored without allocation, so refusals and reports can contain it.

ghost use Rattle.std.specs.Prelude.{◌≡◌, ◌≤◌, Some, None, [], IsAscii, IsTrue, length, if◌then◌else◌, nat_eq};
ghost use Rattle.std.proofs.Common.{rules};
ghost use Rattle.std.specs.Cmp.{partial_equiv_from_equiv};
ghost use Rattle.std.specs.Cmp.Lexicographic.{nat_list_eq_equiv, pointwise};
ghost use Rattle.std.specs.Cmp.Rules.{hashing};
ghost use Rattle.std.specs.Hash as fed;
ghost use Rattle.text_core.specs.Name.{is_name};

use std::hash::{Hash, Hasher};
use std::marker::Model;
use std::str::from_utf8;
use text_core::{is_name, padded};

/// A string of at most 32 bytes: the name of a host, or the empty string if no name is given.
#[derive(Clone, Copy, Debug)]
pub struct Name {
    bytes: [u8; 32],
    len: u8,
}

impl Model for Name {
    ghost use Rattle.std.specs.Prelude.{ℕ, IsAscii, List, take, length};
    ghost use Rattle.text_core.specs.inner.Padded.{IsPadded, padded, padded_bytes, padded_len};

    ghost Value = { List ℕ };

    ghost view = { λ n. take n.len n.bytes };

    ghost invariant = { λ n. IsPadded 32 n.len n.bytes × IsAscii (take n.len n.bytes) };

    ghost inverse = { λ text. record { bytes = padded 32 text; len = length text } };

    ghost inverse_ok = { λ n stored i. record { bytes = padded_bytes 32 n.len n.bytes stored.0 i; len = padded_len 32 n.len n.bytes stored.0 i } };
}

impl Name {
    /// Returns the text as a name, or `None` if it is not a valid name. A name has 1 to 32 bytes,
    /// each a letter A to Z or a to z, a digit, `_` or `-`.
    pub fn new(text: &[u8]) -> Option<Name>
        ensures { result ≡ (if is_name text.now then Some text.now else None) }
    {
        if is_name(text) {
            Some(Name::of(text))
        } else {
            None
        }
    }

    /// Returns a validated text as a name.
    pub fn of(text: &[u8]) -> Name
        requires { IsTrue (is_name text.now) }
        ensures { result ≡ text.now }
    {
        Name {
            bytes: padded(text),
            len: text.len() as u8,
        }
    }

    /// Returns the empty name, which means that no name is given.
    pub fn none() -> Name
        ensures { result ≡ [] }
    {
        Name {
            bytes: [0; 32],
            len: 0,
        }
    }

    /// Returns the name as a string slice.
    pub fn as_str(&self) -> &str
        ensures { result.now ≡ self.now }
    {
        from_utf8(self.bytes()).unwrap()
    }

    /// Returns the bytes of the name.
    pub fn bytes(&self) -> &[u8]
        ensures value { result.now ≡ self.now }
        ensures short { length result.now ≤ 32 }
        ensures ascii { IsAscii result.now }
    {
        &self.bytes[..self.len as usize]
    }
}

impl PartialEq for Name {
    ghost eq = { pointwise nat_eq };

    ghost laws = { partial_equiv_from_equiv nat_list_eq_equiv };

    fn eq(&self, other: &Name) -> bool {
        self.bytes() == other.bytes()
    }
}

impl Eq for Name {
    ghost laws = { nat_list_eq_equiv };
}

impl Hash for Name {
    ghost hash_input = { λ name. fed.slice fed.u8 name };

    ghost respects_eq = { Prim.search (hashing, rules) };

    fn hash<H: Hasher>(&self, state: &mut H) {
        self.bytes().hash(state);
    }
}
