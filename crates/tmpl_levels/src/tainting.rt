//! Tainting: the information of a host has labels, which it propagates unless it removes them.

ghost use Rattle.std.specs.Prelude.{◌≡◌, ◌<◌, ◌↔◌, IsTrue, IfOk, length, replicate, slice_set};
ghost use Rattle.inv_law.specs.Attributes.{PassesBetween};
ghost use Rattle.inv_law.specs.inner.Resets.{PassesAfterReset};
ghost use Rattle.inv_law.specs.laws.AttributeLaws.{ResetPassesNoMore-attributes};
ghost use Rattle.inv_law.specs.declared.strategy.Strategy.TheVariants.{Information};
ghost use Rattle.tmpl_levels.specs.Tainting.{tainting, untainted, TaintsPass};
ghost use Rattle.tmpl_levels.specs.laws.TaintingLaws.{tainting_secure};

use inv_law::{EdgeRule, Strategy};
use std::alloc::{AllocError, Global};
use std::marker::Model;

// Sets of labels, one bit per label: the labels that a host has, and those that it removes from the
// data it sends.
#[derive(Clone, Copy)]
struct Labels {
    taints: u64,
    untaints: u64,
}

impl Labels {
    // Whether each label that the sender propagates is a label of the receiver.
    fn pass_to(self, receiver: Labels) -> bool
        ensures { IsTrue result ↔ TaintsPass self receiver }
    {
        let kept = self.taints & !self.untaints;
        kept & receiver.taints == kept
    }
}

const UNTAINTED: Labels = Labels {
    taints: 0,
    untaints: 0,
};

/// Protects information with a label from hosts without the label.
#[derive(Drop)]
pub struct Tainting {
    hosts: Vec<Labels>,
}

impl Model for Tainting {
    ghost use Rattle.std.specs.Prelude.{List};
    ghost use Rattle.tmpl_levels.specs.inner.TaintingView.{AreLabelled};
    ghost use Rattle.tmpl_levels.specs.declared.tainting.Labels.{Labels};

    ghost Value = { List Labels };

    ghost view = { λ tainting. tainting.hosts.items };

    ghost invariant = { λ tainting. AreLabelled tainting.hosts.items };
}

impl Tainting {
    /// Returns the rule for `n` hosts without labels.
    pub fn new(alloc: Global, n: u16) -> Result<Self, AllocError>
        ensures { IfOk result (λ tainting. tainting ≡ replicate n untainted) }
    {
        let mut hosts = Vec::new(alloc);
        hosts.resize(n as usize, UNTAINTED)?;
        Ok(Tainting { hosts })
    }

    /// Sets the labels of the host, one bit per label. It can only remove labels that it has.
    pub fn set(&mut self, host: u16, taints: u64, untaints: u64)
        requires host { host < length self.old }
        requires may { tainting.MayHave (length self.old) host (record { taints = taints; untaints = untaints }) }
        ensures { self.new ≡ slice_set self.old host (record { taints = taints; untaints = untaints }) }
    {
        self.hosts[host as usize] = Labels { taints, untaints };
    }
}

impl EdgeRule for Tainting {
    ghost size_of = { λ hosts. length hosts };

    ghost strategy_of = { λ _. Information };

    ghost passes_from = { PassesBetween untainted TaintsPass };

    ghost passes_after_reset = { PassesAfterReset untainted TaintsPass };

    ghost reset_gives = { λ hosts host new. new ≡ slice_set hosts host untainted };

    fn strategy(&self) -> Strategy {
        Strategy::Information
    }

    fn hosts(&self) -> u16 {
        self.hosts.len() as u16
    }

    fn passes(&self, i: u16, j: u16) -> bool {
        let sender = self.hosts[i as usize];
        let receiver = self.hosts[j as usize];
        sender.pass_to(receiver)
    }

    fn with_default(&self, alloc: Global, host: u16) -> Result<Self, AllocError> {
        let mut hosts = Vec::from_slice(alloc, &self.hosts)?;
        hosts[host as usize] = UNTAINTED;
        Ok(Tainting { hosts })
    }

    ghost reset_passes_no_more = { λ hosts. ResetPassesNoMore-attributes Information untainted TaintsPass tainting_secure (length hosts) hosts };
}
