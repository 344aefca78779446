//! The sink template: hosts that only receive, and pools, which send to each other and to sinks.

use crate::kinds::{Kind, KindRule};
use inv_law::Strategy;

/// The hosts to which a host may send.
#[derive(Clone, Copy, Debug, PartialEq, Eq)]
pub enum SinkKind {
    /// Sends to no host.
    Sink,
    /// Sends to pools and sinks.
    Pool,
    /// Sends to all.
    Unassigned,
}

/// Confines the data of pools and sinks to these hosts.
pub type SinkRule = KindRule<SinkKind>;

impl Kind for SinkKind {
    ghost use Rattle.inv_law.specs.declared.strategy.Strategy.TheVariants.{Information};
    ghost use Rattle.tmpl_zones.specs.Sink.{sink_passes};
    ghost use Rattle.tmpl_zones.specs.laws.SinkLaws.{sink_secure};
    ghost use Rattle.tmpl_zones.specs.declared.sink.SinkKind.TheVariants.{Unassigned};

    ghost default_kind = { Unassigned };

    ghost kinds_strategy = { Information };

    ghost kind_passes = { sink_passes };

    fn unassigned() -> Self {
        Self::Unassigned
    }

    fn strategy() -> Strategy {
        Strategy::Information
    }

    fn passes_to(self, receiver: Self) -> bool {
        match self {
            SinkKind::Sink => false,
            SinkKind::Pool => !matches!(receiver, SinkKind::Unassigned),
            SinkKind::Unassigned => true,
        }
    }

    ghost secure = { sink_secure };
}
