//! The services of flows between hosts.

ghost use Rattle.std.specs.Prelude.{◌≡◌, ◌<◌, ◌++◌, ◌∷◌, [], ℕ, ◌⊎◌, ◌≢◌, ◌↔◌, IsTrue, IfOk, OnOk, OnErr, length};
ghost use Rattle.host_net.specs.inner.Service.{is_service};
ghost use Rattle.host_net.specs.Services.{service_limit, services_of};
ghost use Rattle.host_net.specs.inner.Services.{AreServices, with_service};

use crate::service::Service;
use indexmap::IndexMap;
use std::alloc::{AllocError, Global};
use std::marker::Model;

/// The greatest number of services of one flow.
pub const SERVICE_LIMIT: usize = 16;

/// The flows that are restricted to services, and their services. A flow is a pair of host numbers.
#[derive(Drop)]
pub struct Services {
    narrowed: IndexMap<(u16, u16), Vec<Service>>,
}

impl Model for Services {
    ghost use Rattle.std.specs.Prelude.{List};
    ghost use Rattle.host_net.specs.Services.{RestrictedFlow};
    ghost use Rattle.host_net.specs.inner.Services.{AreServices};
    ghost use Rattle.host_net.specs.inner.ServicesView.{services_view};

    ghost Value = { List RestrictedFlow };

    ghost view = { λ s. services_view s.narrowed.entries };

    ghost invariant = { λ s. AreServices (services_view s.narrowed.entries) };
}

impl Services {
    /// Returns the services of a network with unrestricted flows only.
    pub fn new(alloc: Global) -> Services
        ensures { result ≡ [] }
    {
        Services {
            narrowed: IndexMap::new(alloc),
        }
    }

    /// Whether all flows are unrestricted.
    pub fn is_empty(&self) -> bool
        ensures empty { IsTrue result ↔ (self.now ≡ []) }
        ensures services { AreServices self.now }
    {
        self.narrowed.is_empty()
    }

    /// Adds a service to a flow.
    pub fn add(&mut self, from: u16, to: u16, service: Service) -> Result<(), AllocError>
        requires room { length (services_of self.old from to) < service_limit }
        requires service { IsTrue (is_service service) }
        ensures added { OnOk result (self.new ≡ with_service self.old from to service) }
        ensures unchanged { OnErr result (self.new ≡ self.old) }

        // The service is the last one of its flow. Every other flow is unchanged.
        ensures last { OnOk result (services_of self.new from to ≡ services_of self.old from to ++ service ∷ []) }
        ensures others { OnOk result ((i j : ℕ) → (i ≢ from) ⊎ (j ≢ to) → services_of self.new i j ≡ services_of self.old i j) }
    {
        let services = self.grown(from, to, service)?;
        self.narrowed.insert((from, to), services)?;
        Ok(())
    }

    /// Returns a new list: the services of a flow, followed by one more. The old list is unchanged
    /// if allocation fails.
    fn grown(&self, from: u16, to: u16, service: Service) -> Result<Vec<Service>, AllocError>
        ensures { IfOk result (λ services. services.items ≡ services_of self.now from to ++ service ∷ []) }
    {
        let mut services = Vec::from_slice(*self.narrowed.allocator(), self.of(from, to))?;
        services.push(service)?;
        Ok(services)
    }

    /// Returns the services of a flow in the order of their addition. A flow without services is
    /// unrestricted: every packet belongs to it.
    pub fn of(&self, from: u16, to: u16) -> &[Service]
        ensures list { result.now ≡ services_of self.now from to }
        ensures services { AreServices self.now }
    {
        match self.narrowed.get(&(from, to)) {
            Some(services) => services,
            None => &[],
        }
    }
}
