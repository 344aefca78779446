//! Bell-LaPadula: information flows to hosts of the same or a higher level, and to trusted hosts.

ghost use Rattle.std.specs.Prelude.{◌≡◌, ◌<◌, IfOk, length, replicate, slice_set};
ghost use Rattle.inv_law.specs.Attributes.{PassesBetween};
ghost use Rattle.inv_law.specs.inner.Resets.{PassesAfterReset};
ghost use Rattle.inv_law.specs.laws.AttributeLaws.{ResetPassesNoMore-attributes};
ghost use Rattle.inv_law.specs.declared.strategy.Strategy.TheVariants.{Information};
ghost use Rattle.tmpl_levels.specs.Blp.{unclassified, BlpPasses};
ghost use Rattle.tmpl_levels.specs.laws.BlpLaws.{blp_secure};

use inv_law::{EdgeRule, Strategy};
use std::alloc::{AllocError, Global};
use std::marker::Model;

// The level of the information of a host, and whether it is trusted with information above its
// level.
#[derive(Clone, Copy)]
struct Clearance {
    level: u16,
    trusted: bool,
}

const UNCLASSIFIED: Clearance = Clearance {
    level: 0,
    trusted: false,
};

/// Protects the information of hosts of a level from hosts of a lower level.
#[derive(Drop)]
pub struct Blp {
    hosts: Vec<Clearance>,
}

impl Model for Blp {
    ghost use Rattle.std.specs.Prelude.{List, length, ◌<◌, ◌^◌};
    ghost use Rattle.tmpl_levels.specs.declared.blp.Clearance.{Clearance};

    ghost Value = { List Clearance };

    ghost view = { λ blp. blp.hosts.items };

    ghost invariant = { λ blp. length blp.hosts.items < 2 ^ 16 };
}

impl Blp {
    /// Returns the rule for `n` hosts of level 0, none of them trusted.
    pub fn new(alloc: Global, n: u16) -> Result<Self, AllocError>
        ensures { IfOk result (λ blp. blp ≡ replicate n unclassified) }
    {
        let mut hosts = Vec::new(alloc);
        hosts.resize(n as usize, UNCLASSIFIED)?;
        Ok(Blp { hosts })
    }

    /// Sets the level of the host. A trusted host may receive information above its level.
    pub fn set(&mut self, host: u16, level: u16, trusted: bool)
        requires { host < length self.old }
        ensures { self.new ≡ slice_set self.old host (record { level = level; trusted = trusted }) }
    {
        self.hosts[host as usize] = Clearance { level, trusted };
    }
}

impl EdgeRule for Blp {
    ghost size_of = { λ hosts. length hosts };

    ghost strategy_of = { λ _. Information };

    ghost passes_from = { PassesBetween unclassified BlpPasses };

    ghost passes_after_reset = { PassesAfterReset unclassified BlpPasses };

    ghost reset_gives = { λ hosts host new. new ≡ slice_set hosts host unclassified };

    fn strategy(&self) -> Strategy {
        Strategy::Information
    }

    fn hosts(&self) -> u16 {
        self.hosts.len() as u16
    }

    fn passes(&self, i: u16, j: u16) -> bool {
        let sender = self.hosts[i as usize];
        let receiver = self.hosts[j as usize];
        receiver.trusted || sender.level <= receiver.level
    }

    fn with_default(&self, alloc: Global, host: u16) -> Result<Self, AllocError> {
        let mut hosts = Vec::from_slice(alloc, &self.hosts)?;
        hosts[host as usize] = UNCLASSIFIED;
        Ok(Blp { hosts })
    }

    ghost reset_passes_no_more = { λ hosts. ResetPassesNoMore-attributes Information unclassified BlpPasses blp_secure (length hosts) hosts };
}
