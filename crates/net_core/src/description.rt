//! A network: its hosts, the requested flows between them, their services, and its invariants.

ghost use Rattle.std.specs.Prelude.{◌≡◌, ◌≤◌, All, length};
ghost use Rattle.flow_set.specs.Flow.{IsFlow};
ghost use Rattle.flow_set.specs.inner.FlowSetView.{IsFlowSet};
ghost use Rattle.host_net.specs.inner.Hosts.{IsHosts};
ghost use Rattle.host_net.specs.Limits.{invariant_limit};
ghost use Rattle.host_net.specs.inner.Services.{AreServices};
ghost use Rattle.inv_any.specs.Templates.{meaning_of};
ghost use Rattle.net_core.specs.inner.Asking.{asking_where};
ghost use Rattle.net_core.specs.inner.Fitting.{IsNetwork};

use crate::one_flow::set_flow;
use flow_set::{Flow, FlowSet};
use host_net::{Hosts, Services};
use inv_any::AnyInv;
use std::marker::Model;

/// The network that a description specifies.
#[derive(Drop)]
pub struct Description {
    hosts: Hosts,
    asked: FlowSet,
    services: Services,
    given: bool,
    answers: bool,
    invariants: Vec<AnyInv>,
}

impl Model for Description {
    ghost use Rattle.std.specs.Coded.{codes};
    ghost use Rattle.net_core.specs.Network.{Network};
    ghost use Rattle.net_core.specs.inner.Fitting.{IsNetwork};
    ghost use Rattle.inv_any.specs.contracts.any_inv.AnyInv as any;

    ghost Value = { Network };

    ghost coded = { Prim.hlevel (codes, any.the_row.coded) };

    ghost view = { λ d. record {
      hosts = d.hosts;
      asked = d.asked;
      services = d.services;
      given = d.given;
      answers = d.answers;
      invariants = d.invariants.items;
    } };

    ghost invariant = { λ d. IsNetwork (record {
      hosts = d.hosts;
      asked = d.asked;
      services = d.services;
      given = d.given;
      answers = d.answers;
      invariants = d.invariants.items;
    }) };
}

impl Description {
    /// Returns the network of these parts.
    pub fn new(
        hosts: Hosts,
        asked: FlowSet,
        services: Services,
        given: bool,
        answers: bool,
        invariants: Vec<AnyInv>,
    ) -> Description
        requires { IsNetwork (record { hosts = hosts; asked = asked; services = services; given = given; answers = answers; invariants = invariants.items }) }
        ensures { result ≡ record { hosts = hosts; asked = asked; services = services; given = given; answers = answers; invariants = invariants.items } }
    {
        Description {
            hosts,
            asked,
            services,
            given,
            answers,
            invariants,
        }
    }

    /// Returns the hosts, in the order of their numbers.
    pub fn hosts(&self) -> &Hosts
        ensures value { result.now ≡ self.now.hosts }
        ensures hosts { IsHosts self.now.hosts }
    {
        &self.hosts
    }

    /// Returns the requested flows.
    pub fn asked(&self) -> &FlowSet
        ensures value { result.now ≡ self.now.asked }
        ensures size { self.now.asked.size ≡ length self.now.hosts }
        ensures set { IsFlowSet self.now.asked.size self.now.asked.flows }
    {
        &self.asked
    }

    /// Adds the flow to the requested flows, or removes it. Its services are unchanged.
    pub(crate) fn set_asked(&mut self, flow: Flow, asked: bool)
        requires { IsFlow self.old.asked.size flow }
        ensures { self.new ≡ asking_where asked self.old flow }
    {
        set_flow(&mut self.asked, flow, asked);
    }

    /// Returns the services of the flows. A flow without services is unrestricted: every packet
    /// belongs to it.
    pub fn services(&self) -> &Services
        ensures value { result.now ≡ self.now.services }
        ensures services { AreServices self.now.services }
    {
        &self.services
    }

    /// Whether the requested flows were listed, possibly as an empty list. If they were not, every
    /// flow is requested.
    pub fn given(&self) -> bool
        ensures { result ≡ self.now.given }
    {
        self.given
    }

    /// Whether flows may have answers.
    pub fn answers(&self) -> bool
        ensures { result ≡ self.now.answers }
    {
        self.answers
    }

    /// Returns the invariants, in order.
    pub fn invariants(&self) -> &[AnyInv]
        ensures value { result.now ≡ self.now.invariants }
        ensures sizes { All (λ inv. (meaning_of inv).size ≡ length self.now.hosts) self.now.invariants }
        ensures few { length self.now.invariants ≤ invariant_limit }
    {
        &self.invariants
    }
}
