//! The subnets template: hosts of a subnet send to each other and to the border of their subnet,
//! borders send to borders, and every host sends to unassigned hosts. No border sends into a
//! subnet, not even into its own.

use crate::kinds::{Kind, KindRule};
use inv_law::Strategy;

/// The position of a host in the subnets.
#[derive(Clone, Copy, Debug, PartialEq, Eq)]
pub enum NetKind {
    /// In the subnet with this number.
    Subnet(u16),
    /// At the border of the subnet with this number.
    Border(u16),
    /// Outside: it sends only to unassigned hosts.
    Unassigned,
}

/// Isolates subnets from each other and from hosts outside.
pub type Subnets = KindRule<NetKind>;

impl Kind for NetKind {
    ghost use Rattle.inv_law.specs.declared.strategy.Strategy.TheVariants.{Access};
    ghost use Rattle.tmpl_zones.specs.Subnets.{subnets_passes};
    ghost use Rattle.tmpl_zones.specs.laws.SubnetsLaws.{subnets_secure};
    ghost use Rattle.tmpl_zones.specs.declared.subnets.NetKind.TheVariants.{Unassigned};

    ghost default_kind = { Unassigned };

    ghost kinds_strategy = { Access };

    ghost kind_passes = { subnets_passes };

    fn unassigned() -> Self {
        Self::Unassigned
    }

    fn strategy() -> Strategy {
        Strategy::Access
    }

    fn passes_to(self, receiver: Self) -> bool {
        match (self, receiver) {
            (NetKind::Subnet(a), NetKind::Subnet(b) | NetKind::Border(b)) => a == b,
            (NetKind::Border(_), NetKind::Subnet(_)) => false,
            (NetKind::Border(_), NetKind::Border(_)) => true,
            (NetKind::Unassigned, NetKind::Subnet(_) | NetKind::Border(_)) => false,
            (_, NetKind::Unassigned) => true,
        }
    }

    ghost secure = { subnets_secure };
}
