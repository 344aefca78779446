//! The rule of the hierarchy, for hosts with optional positions.

ghost use Rattle.std.specs.Prelude.{◌≡◌, ◌<◌, IfOk, Some, OnOk, OnErr, length, replicate, slice_set};
ghost use Rattle.inv_law.specs.Attributes.{PassesBetween};
ghost use Rattle.inv_law.specs.inner.Resets.{PassesAfterReset};
ghost use Rattle.inv_law.specs.laws.AttributeLaws.{ResetPassesNoMore-attributes};
ghost use Rattle.inv_law.specs.declared.strategy.Strategy.TheVariants.{Access};
ghost use Rattle.tmpl_domains.specs.Domains.{DomainsPass, domains};
ghost use Rattle.tmpl_domains.specs.laws.DomainsLaws.{domains_secure};
ghost use Rattle.tmpl_domains.specs.Path.{segments};

use crate::domain::Domain;
use inv_law::{EdgeRule, Strategy};
use std::alloc::{AllocError, Global};
use std::marker::Model;

/// Lets a host with a position receive only from hosts at its position and above it. Trust lets a
/// sender act as if it were that many levels higher. A host without a position receives from all
/// hosts, and sends to no host with a position.
#[derive(Drop)]
pub struct Domains {
    alloc: Global,
    hosts: Vec<Option<Domain>>,
}

impl Model for Domains {
    ghost use Rattle.std.specs.Prelude.{List, Option};
    ghost use Rattle.tmpl_domains.specs.inner.DomainView.{ArePlaced};
    ghost use Rattle.tmpl_domains.specs.Domains.{Place};

    ghost Value = { List (Option Place) };

    ghost view = { λ domains. domains.hosts.items };

    ghost invariant = { λ domains. ArePlaced domains.hosts.items };
}

impl Domains {
    /// Returns the rule for `n` hosts without positions.
    pub fn new(alloc: Global, n: u16) -> Result<Self, AllocError>
        ensures { IfOk result (λ domains. domains ≡ replicate n None) }
    {
        let mut hosts = Vec::with_capacity(alloc, n as usize)?;
        for _ in 0..n {
            hosts.push(None)?;
        }
        Ok(Domains { alloc, hosts })
    }

    /// Sets the position of the host. With `trust`, it acts as if its path had that many segments
    /// fewer.
    pub fn set(&mut self, host: u16, path: &[u8], trust: u8) -> Result<(), AllocError>
        requires host { host < length self.old }
        requires may { domains.MayHave (length self.old) host (Some (record { path = segments path.now; trust = trust })) }
        ensures ok { OnOk result (self.new
            ≡ slice_set self.old host (Some (record { path = segments path.now; trust = trust }))) }
        ensures err { OnErr result (self.new ≡ self.old) }
    {
        let domain = Domain::new(self.alloc, path, trust)?;
        self.hosts[host as usize] = Some(domain);
        Ok(())
    }
}

impl EdgeRule for Domains {
    ghost use Rattle.std.specs.Prelude.{None};

    ghost size_of = { λ hosts. length hosts };

    ghost strategy_of = { λ _. Access };

    ghost passes_from = { PassesBetween None DomainsPass };

    ghost passes_after_reset = { PassesAfterReset None DomainsPass };

    ghost reset_gives = { λ hosts host new. new ≡ slice_set hosts host None };

    fn strategy(&self) -> Strategy {
        Strategy::Access
    }

    fn hosts(&self) -> u16 {
        self.hosts.len() as u16
    }

    fn passes(&self, i: u16, j: u16) -> bool {
        let Some(receiver) = &self.hosts[j as usize] else {
            return true;
        };
        let Some(sender) = &self.hosts[i as usize] else {
            return false;
        };
        sender.sends_to(receiver)
    }

    fn with_default(&self, alloc: Global, host: u16) -> Result<Self, AllocError> {
        let mut hosts = copied(alloc, &self.hosts)?;
        hosts[host as usize] = None;
        Ok(Domains { alloc, hosts })
    }

    ghost reset_passes_no_more = { λ hosts. ResetPassesNoMore-attributes Access None DomainsPass domains_secure (length hosts) hosts };
}

fn copied(alloc: Global, hosts: &[Option<Domain>]) -> Result<Vec<Option<Domain>>, AllocError>
    ensures { IfOk result (λ copy. copy.items ≡ hosts.now) }
{
    let mut copy = Vec::with_capacity(alloc, hosts.len())?;
    for host in hosts {
        let domain = match host {
            Some(domain) => Some(domain.copy(alloc)?),
            None => None,
        };
        copy.push(domain)?;
    }
    Ok(copy)
}
