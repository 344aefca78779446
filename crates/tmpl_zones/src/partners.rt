//! The communication partners template: a master receives packets only from the hosts in its list,
//! and a host with `Care` from all hosts except those with `DontCare`.

ghost use Rattle.std.specs.Prelude.{◌≡◌, ◌≢◌, ◌<◌, ◌↔◌, ◌⊎◌, ℕ, true, false, IfOk, length, replicate, slice_index_or, slice_set};
ghost use Rattle.inv_law.specs.declared.strategy.Strategy.TheVariants.{Access};
ghost use Rattle.tmpl_zones.specs.Partners.{Partner, DontCare, Care, Master, PartnersPass, with_sender};
ghost use Rattle.tmpl_zones.specs.inner.PartnersView.{IsMaster};
ghost use Rattle.tmpl_zones.specs.inner.Resets.{PartnersPassAfterReset};
ghost use Rattle.tmpl_zones.specs.laws.PartnersLaws.{partners_reset};

use inv_law::{EdgeRule, Strategy};
use std::alloc::{AllocError, Global};
use std::marker::Model;

// The hosts from which a host receives packets.
#[derive(Clone, Copy)]
enum Taking {
    DontCare,
    Care,
    Master,
}

// A host's attribute. A master receives from the hosts marked in `from`, which has an element for
// every host and is ignored for other kinds.
#[derive(Drop)]
struct Receiver {
    taking: Taking,
    from: Vec<bool>,
}

/// Lets masters receive only from the hosts in their lists, and hosts with `Care` only from hosts
/// without `DontCare`.
#[derive(Drop)]
pub struct Partners {
    hosts: Vec<Receiver>,
}

impl Model for Partners {
    ghost use Rattle.std.specs.Prelude.{List, map};
    ghost use Rattle.tmpl_zones.specs.Partners.{Partner};
    ghost use Rattle.tmpl_zones.specs.inner.PartnersView.{partner_of, HasRooms};

    ghost Value = { List Partner };

    ghost view = { λ partners. map partner_of partners.hosts.items };

    ghost invariant = { λ partners. HasRooms partners.hosts.items };
}

impl Partners {
    /// Returns the rule for `n` hosts with `DontCare`.
    pub fn new(alloc: Global, n: u16) -> Result<Self, AllocError>
        ensures { IfOk result (λ partners. partners ≡ replicate n DontCare) }
    {
        let mut hosts = Vec::with_capacity(alloc, n as usize)?;
        for _ in 0..n {
            let mut from = Vec::new(alloc);
            from.resize(n as usize, false)?;
            hosts.push(Receiver {
                taking: Taking::DontCare,
                from,
            })?;
        }
        Ok(Partners { hosts })
    }

    /// Lets the host receive packets from masters and from hosts with `Care`, and from no host with
    /// `DontCare`.
    pub fn set_care(&mut self, host: u16)
        requires { host < length self.old }
        ensures { self.new ≡ slice_set self.old host Care }
    {
        let receiver = &mut self.hosts[host as usize];
        receiver.taking = Taking::Care;
    }

    /// Makes the host a master with an empty list.
    pub fn set_master(&mut self, host: u16)
        requires { host < length self.old }
        ensures list { self.new ≡ slice_set self.old host (Master (replicate (length self.old) false)) }
        ensures nobody { (sender : ℕ) → sender < length self.old → PartnersPass self.new sender host → ⊥ }
    {
        let receiver = &mut self.hosts[host as usize];
        receiver.taking = Taking::Master;
        receiver.from.fill(false);
    }

    /// Adds the sender to the list of the master.
    pub fn allow(&mut self, sender: u16, master: u16)
        requires hosts { (sender < length self.old) × (master < length self.old) }
        requires differ { sender ≢ master }
        requires master { IsMaster (slice_index_or self.old master DontCare) }
        ensures list { self.new ≡ slice_set self.old master (with_sender (slice_index_or self.old master DontCare) sender) }
        ensures takes { (from : ℕ) → PartnersPass self.new from master
            ↔ ((from ≡ sender) ⊎ PartnersPass self.old from master) }
    {
        let receiver = &mut self.hosts[master as usize];
        receiver.from[sender as usize] = true;
    }

    fn reset(&mut self, host: u16)
        requires { host < length self.old }
        ensures { self.new ≡ slice_set self.old host DontCare }
    {
        let receiver = &mut self.hosts[host as usize];
        receiver.taking = Taking::DontCare;
    }

    fn copy(&self, alloc: Global) -> Result<Self, AllocError>
        ensures { IfOk result (λ copy. copy ≡ self.now) }
    {
        let mut hosts = Vec::with_capacity(alloc, self.hosts.len())?;
        for receiver in &self.hosts {
            hosts.push(Receiver {
                taking: receiver.taking,
                from: Vec::from_slice(alloc, &receiver.from)?,
            })?;
        }
        Ok(Partners { hosts })
    }
}

impl EdgeRule for Partners {
    ghost size_of = { λ partners. length partners };

    ghost strategy_of = { λ _. Access };

    ghost passes_from = { PartnersPass };

    ghost passes_after_reset = { PartnersPassAfterReset };

    ghost reset_gives = { λ partners host new. new ≡ slice_set partners host DontCare };

    fn strategy(&self) -> Strategy {
        Strategy::Access
    }

    fn hosts(&self) -> u16 {
        self.hosts.len() as u16
    }

    fn passes(&self, i: u16, j: u16) -> bool {
        let receiver = &self.hosts[j as usize];
        match receiver.taking {
            Taking::DontCare => true,
            Taking::Care => !matches!(self.hosts[i as usize].taking, Taking::DontCare),
            Taking::Master => receiver.from[i as usize],
        }
    }

    fn with_default(&self, alloc: Global, host: u16) -> Result<Self, AllocError> {
        let mut new = self.copy(alloc)?;
        new.reset(host);
        Ok(new)
    }

    ghost reset_passes_no_more = { λ partners. partners_reset (length partners) partners };
}
