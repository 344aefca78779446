//! The security gateway template: members are reached only by gateways, and not by each other. An
//! unassigned host reaches the hosts that are intended to be reached from outside: accessible
//! members, gateways of the kind `GatewayIn`, and other unassigned hosts.

use crate::kinds::{Kind, KindRule};
use inv_law::Strategy;

/// The role of a host with respect to the gateway.
#[derive(Clone, Copy, Debug, PartialEq, Eq)]
pub enum GateKind {
    /// Sends to all, and is not reached by unassigned hosts.
    Gateway,
    /// Sends to all, and is reached by all.
    GatewayIn,
    /// Is reached only by gateways.
    Member,
    /// A member that is reached by all.
    Accessible,
    /// Sends to all except members and gateways of the kind `Gateway`.
    Unassigned,
}

/// Protects members by their gateways.
pub type Gateway = KindRule<GateKind>;

impl Kind for GateKind {
    ghost use Rattle.inv_law.specs.declared.strategy.Strategy.TheVariants.{Access};
    ghost use Rattle.tmpl_zones.specs.Gateway.{gateway_passes};
    ghost use Rattle.tmpl_zones.specs.laws.GatewayLaws.{gateway_secure};
    ghost use Rattle.tmpl_zones.specs.declared.gateway.GateKind.TheVariants.{Unassigned};

    ghost default_kind = { Unassigned };

    ghost kinds_strategy = { Access };

    ghost kind_passes = { gateway_passes };

    fn unassigned() -> Self {
        Self::Unassigned
    }

    fn strategy() -> Strategy {
        Strategy::Access
    }

    fn passes_to(self, receiver: Self) -> bool {
        !matches!(
            (self, receiver),
            (GateKind::Member | GateKind::Accessible, GateKind::Member)
                | (GateKind::Unassigned, GateKind::Gateway | GateKind::Member)
        )
    }

    ghost secure = { gateway_secure };
}
