//! Dependability: the number of other hosts that a host may reach.
ghost use Rattle.std.specs.Prelude.{◌≡◌};

use crate::assign::Assign;
use crate::attribute_table::AttributeTable;
use crate::shapes::{HOST, of_shape};
use host_net::Hosts;
use inv_any::AnyInv;
use std::alloc::{AllocError, Global};
use table_core::{Key, Kind, number_at};
use tmpl_reach::Dependability;
use toml::Table;

const KEYS: [Key; 2] = [HOST, Key::Needed("limit", Kind::Number(u16::MAX))];

impl AttributeTable for Dependability {
    ghost use Rattle.attr_core.specs.Dependability.{dependability_form};

    ghost form = { dependability_form };

    ghost attributes = { λ attributes. attributes };

    fn has_shape(table: &Table) -> bool {
        of_shape(table, &KEYS)
    }

    #[tactic(auto, using(crate::specs::inner::Walks::same_everywhere))]
    fn start(alloc: Global, hosts: &Hosts) -> Result<Self, AllocError> {
        Dependability::new(alloc, hosts.count())
    }

    fn take(&mut self, _: Global, _: &Hosts, assign: &Assign<'_>) -> Result<bool, AllocError> {
        let Some(limit) = number_at(assign.table, "limit", u16::MAX) else {
            return Ok(false);
        };
        self.set(assign.host, limit);
        Ok(true)
    }

    fn make(self) -> AnyInv {
        AnyInv::Dependability(self)
    }
}
