//! Security gateways: the kind of a host.
ghost use Rattle.std.specs.Prelude.{◌≡◌};
ghost use Rattle.attr_core.specs.Gateway.{gateway_kinds};
ghost use Rattle.attr_core.specs.Kinds.{kind_in};
ghost use Rattle.toml.specs.View.{table_view};

use crate::assign::Assign;
use crate::attribute_table::AttributeTable;
use crate::kinds::KEYS;
use crate::shapes::of_shape;
use host_net::Hosts;
use inv_any::AnyInv;
use inv_law::EdgeWise;
use std::alloc::{AllocError, Global};
use table_core::text_at;
use tmpl_zones::{GateKind, Gateway};
use toml::Table;

impl AttributeTable for Gateway {
    ghost use Rattle.attr_core.specs.Gateway.{gateway_form};

    ghost form = { gateway_form };

    ghost attributes = { λ attributes. attributes };

    fn has_shape(table: &Table) -> bool {
        of_shape(table, &KEYS)
    }

    #[tactic(auto, using(crate::specs::inner::Walks::same_everywhere))]
    fn start(alloc: Global, hosts: &Hosts) -> Result<Self, AllocError> {
        Gateway::new(alloc, hosts.count())
    }

    fn take(&mut self, _: Global, _: &Hosts, assign: &Assign<'_>) -> Result<bool, AllocError> {
        let Some(kind) = kind_in(assign.table) else {
            return Ok(false);
        };
        self.set(assign.host, kind);
        Ok(true)
    }

    fn make(self) -> AnyInv {
        AnyInv::Gateway(EdgeWise::new(self))
    }
}

/// Returns the kind that the table specifies.
#[tactic(auto, unfolding(crate::specs::Kinds::kind_in))]
fn kind_in(table: &Table) -> Option<GateKind>
    ensures { result ≡ kind_in gateway_kinds (table_view table.now) }
{
    match text_at(table, "kind")? {
        "gateway" => Some(GateKind::Gateway),
        "gateway-in" => Some(GateKind::GatewayIn),
        "member" => Some(GateKind::Member),
        "accessible" => Some(GateKind::Accessible),
        "unassigned" => Some(GateKind::Unassigned),
        _ => None,
    }
}
