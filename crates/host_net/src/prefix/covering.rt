//! The addresses that a prefix covers.

ghost use Rattle.std.specs.Prelude.{◌≡◌, ◌-◌, ◌^◌, ◌≤◌, ◌↔◌, IsTrue, IsSome, IfSome};
ghost use Rattle.host_net.specs.Prefix.{front, covers, is_exact, meets};
ghost use Rattle.host_net.specs.PrefixView.{first_address, last_address};
ghost use Rattle.host_net.specs.inner.PrefixView.{ShareAddress};

use crate::prefix::Prefix;

impl Prefix {
    /// Returns the prefix of the first `len` bits of `addr`, or `None` if `len` exceeds 32.
    pub fn new(addr: u32, len: u8) -> Option<Prefix>
        ensures fits { IsSome result ↔ (len ≤ 32) }
        ensures addr { IfSome result (λ p. p.addr ≡ addr) }
        ensures len { IfSome result (λ p. p.len ≡ len) }
    {
        if len <= 32 {
            Some(Prefix { addr, len })
        } else {
            None
        }
    }

    /// Returns the address, with the bits after the length unchanged.
    pub fn addr(&self) -> u32
        ensures { result ≡ self.now.addr }
    {
        self.addr
    }

    /// Returns the number of significant bits.
    pub fn len(&self) -> u8
        ensures value { result ≡ self.now.len }
        ensures fits { result ≤ 32 }
    {
        self.len
    }

    /// Whether all bits after the length are 0.
    #[tactic(auto, using(std::proofs::lemmas::Nat::one_shl), unfolding(crate::specs::Prefix::is_exact))]
    pub fn exact(&self) -> bool
        ensures { result ≡ is_exact self.now }
    {
        self.addr as u64 % (1u64 << (32 - self.len)) == 0
    }

    /// Whether the address agrees with the prefix in the significant bits.
    #[tactic(auto, using(crate::proofs::PrefixLaws::covers_between), unfolding(crate::specs::Prefix::covers))]
    pub fn covers(&self, addr: u32) -> bool
        ensures exact { result ≡ covers self.now addr }
        ensures between { IsTrue result ↔ ((first_address self.now ≤ addr) × (addr ≤ last_address self.now)) }
    {
        front(self.len, self.addr) == front(self.len, addr)
    }

    /// Returns the first address that the prefix covers.
    #[tactic(auto, unfolding(crate::specs::PrefixView::first_address))]
    pub fn first(&self) -> u32
        ensures { result ≡ first_address self.now }
    {
        ((front(self.len, self.addr) as u64) << (32 - self.len)) as u32
    }

    /// Returns the last address that the prefix covers.
    #[tactic(auto, using(crate::proofs::PrefixLaws::last_address_fits), unfolding(crate::specs::PrefixView::first_address, crate::specs::PrefixView::last_address))]
    pub fn last(&self) -> u32
        ensures { result ≡ last_address self.now }
    {
        self.first() + others(self.len)
    }

    /// Whether both prefixes cover some address.
    #[tactic(auto, unfolding(crate::specs::Prefix::meets))]
    pub fn meets(&self, other: &Prefix) -> bool
        ensures exact { result ≡ meets self.now other.now }
        ensures shared { IsTrue result ↔ ShareAddress self.now other.now }
    {
        let len = self.len.min(other.len);
        front(len, self.addr) == front(len, other.addr)
    }
}

/// Returns the first bits of an address.
pub(crate) fn front(len: u8, addr: u32) -> u32
    ensures { result ≡ front len addr }
{
    ((addr as u64) >> 32u8.saturating_sub(len)) as u32
}

/// Returns the host mask: the bits after the first `len` of 32 are 1, all others are 0.
#[tactic(auto, using(std::proofs::lemmas::Nat::one_shl))]
fn others(len: u8) -> u32
    requires { len ≤ 32 }
    ensures { result ≡ 2 ^ (32 - len) - 1 }
{
    ((1u64 << (32 - len)) - 1) as u32
}
