//! The common form of the zone rules: each host has a kind, and a table of kinds determines the
//! flows that pass.

ghost use Rattle.std.specs.Prelude.{◌≡◌, ◌<◌, Bool, IfOk, length, replicate, slice_set};
ghost use Rattle.inv_law.specs.Attributes.{PassesBetween};
ghost use Rattle.inv_law.specs.inner.Resets.{PassesAfterReset, IsSecureDefault};
ghost use Rattle.inv_law.specs.laws.AttributeLaws.{ResetPassesNoMore-attributes};
ghost use Rattle.inv_law.specs.declared.strategy.Strategy.{Strategy};
ghost use Rattle.tmpl_zones.specs.Kinds.{TablePasses};

use inv_law::{EdgeRule, Strategy};
use std::alloc::{AllocError, Global};
use std::marker::Model;

/// A kind of host, with the table of the flows that may pass between kinds.
pub trait Kind: Copy {
    // The default kind, the strategy, which determines the offending host of a flow that does not
    // pass, and the table, by the kinds of sender and receiver.
    ghost default_kind: { Self };

    ghost kinds_strategy: { Strategy };

    ghost kind_passes: { Self → Self → Bool };

    fn unassigned() -> Self
        ensures { result ≡ default_kind };

    fn strategy() -> Strategy
        ensures { result ≡ kinds_strategy };

    fn passes_to(self, receiver: Self) -> bool
        ensures { result ≡ kind_passes self receiver };

    // The default is secure.
    ghost secure: { IsSecureDefault kinds_strategy default_kind (TablePasses kind_passes) };
}

/// The rule of a table of kinds, for hosts with one kind each.
#[derive(Drop)]
pub struct KindRule<K> {
    kinds: Vec<K>,
}

impl<K> Model for KindRule<K> {
    ghost use Rattle.std.specs.Prelude.{List, length, ◌<◌, ◌^◌};

    ghost Value = { List K };

    ghost view = { λ rule. rule.kinds.items };

    ghost invariant = { λ rule. length rule.kinds.items < 2 ^ 16 };
}

impl<K: Kind> KindRule<K> {
    /// Returns the rule for `n` hosts, each unassigned.
    pub fn new(alloc: Global, n: u16) -> Result<Self, AllocError>
        ensures { IfOk result (λ rule. rule ≡ replicate n K.default_kind) }
    {
        let mut kinds = Vec::new(alloc);
        kinds.resize(n as usize, K::unassigned())?;
        Ok(KindRule { kinds })
    }

    /// Sets the kind of the host.
    pub fn set(&mut self, host: u16, kind: K)
        requires { host < length self.old }
        ensures { self.new ≡ slice_set self.old host kind }
    {
        self.kinds[host as usize] = kind;
    }
}

impl<K: Kind> EdgeRule for KindRule<K> {
    ghost size_of = { λ kinds. length kinds };

    ghost strategy_of = { λ _. K.kinds_strategy };

    ghost passes_from = { PassesBetween K.default_kind (TablePasses K.kind_passes) };

    ghost passes_after_reset = { PassesAfterReset K.default_kind (TablePasses K.kind_passes) };

    ghost reset_gives = { λ kinds host new. new ≡ slice_set kinds host K.default_kind };

    fn strategy(&self) -> Strategy {
        K::strategy()
    }

    fn hosts(&self) -> u16 {
        self.kinds.len() as u16
    }

    fn passes(&self, i: u16, j: u16) -> bool {
        let sender = self.kinds[i as usize];
        let receiver = self.kinds[j as usize];
        sender.passes_to(receiver)
    }

    fn with_default(&self, alloc: Global, host: u16) -> Result<Self, AllocError> {
        let mut kinds = Vec::from_slice(alloc, &self.kinds)?;
        kinds[host as usize] = K::unassigned();
        Ok(KindRule { kinds })
    }

    ghost reset_passes_no_more = { λ kinds. ResetPassesNoMore-attributes K.kinds_strategy K.default_kind (TablePasses K.kind_passes) K.secure (length kinds) kinds };
}
