//! Sinks: the kind of a host.
ghost use Rattle.std.specs.Prelude.{◌≡◌};
ghost use Rattle.attr_core.specs.Kinds.{kind_in};
ghost use Rattle.attr_core.specs.Sink.{sink_kinds};
ghost use Rattle.toml.specs.View.{table_view};

use crate::assign::Assign;
use crate::attribute_table::AttributeTable;
use crate::kinds::KEYS;
use crate::shapes::of_shape;
use host_net::Hosts;
use inv_any::AnyInv;
use inv_law::EdgeWise;
use std::alloc::{AllocError, Global};
use table_core::text_at;
use tmpl_zones::{SinkKind, SinkRule};
use toml::Table;

impl AttributeTable for SinkRule {
    ghost use Rattle.attr_core.specs.Sink.{sink_form};

    ghost form = { sink_form };

    ghost attributes = { λ attributes. attributes };

    fn has_shape(table: &Table) -> bool {
        of_shape(table, &KEYS)
    }

    #[tactic(auto, using(crate::specs::inner::Walks::same_everywhere))]
    fn start(alloc: Global, hosts: &Hosts) -> Result<Self, AllocError> {
        SinkRule::new(alloc, hosts.count())
    }

    fn take(&mut self, _: Global, _: &Hosts, assign: &Assign<'_>) -> Result<bool, AllocError> {
        let Some(kind) = kind_in(assign.table) else {
            return Ok(false);
        };
        self.set(assign.host, kind);
        Ok(true)
    }

    fn make(self) -> AnyInv {
        AnyInv::Sink(EdgeWise::new(self))
    }
}

/// Returns the kind that the table specifies.
#[tactic(auto, unfolding(crate::specs::Kinds::kind_in))]
fn kind_in(table: &Table) -> Option<SinkKind>
    ensures { result ≡ kind_in sink_kinds (table_view table.now) }
{
    match text_at(table, "kind")? {
        "sink" => Some(SinkKind::Sink),
        "pool" => Some(SinkKind::Pool),
        "unassigned" => Some(SinkKind::Unassigned),
        _ => None,
    }
}
