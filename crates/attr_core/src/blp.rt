//! Bell-LaPadula: the level of a host, and whether it is trusted.
ghost use Rattle.std.specs.Prelude.{◌≡◌};

use crate::assign::Assign;
use crate::attribute_table::AttributeTable;
use crate::shapes::{HOST, of_shape};
use host_net::Hosts;
use inv_any::AnyInv;
use inv_law::EdgeWise;
use std::alloc::{AllocError, Global};
use table_core::{Key, Kind, boolean_at, number_at};
use tmpl_levels::Blp;
use toml::Table;

const KEYS: [Key; 3] = [
    HOST,
    Key::Optional("level", Kind::Number(u16::MAX)),
    Key::Optional("trusted", Kind::Boolean),
];

impl AttributeTable for Blp {
    ghost use Rattle.attr_core.specs.Blp.{blp_form};

    ghost form = { blp_form };

    ghost attributes = { λ attributes. attributes };

    fn has_shape(table: &Table) -> bool {
        of_shape(table, &KEYS)
    }

    #[tactic(auto, using(crate::specs::inner::Walks::same_everywhere))]
    fn start(alloc: Global, hosts: &Hosts) -> Result<Self, AllocError> {
        Blp::new(alloc, hosts.count())
    }

    #[tactic(auto, unfolding(crate::specs::Blp::blp_attribute))]
    fn take(&mut self, _: Global, _: &Hosts, assign: &Assign<'_>) -> Result<bool, AllocError> {
        let level = number_at(assign.table, "level", u16::MAX).unwrap_or(0);
        let trusted = boolean_at(assign.table, "trusted").unwrap_or(false);
        self.set(assign.host, level, trusted);
        Ok(true)
    }

    fn make(self) -> AnyInv {
        AnyInv::Blp(EdgeWise::new(self))
    }
}
