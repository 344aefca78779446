//! Non-interference: whether a host is one of the hosts that are isolated from each other.
ghost use Rattle.std.specs.Prelude.{◌≡◌, option_map};
ghost use Rattle.attr_core.specs.Kinds.{kind_in};
ghost use Rattle.attr_core.specs.NonInterference.{interference_kinds};
ghost use Rattle.attr_core.specs.inner.InterferenceView.{interference_of};
ghost use Rattle.toml.specs.View.{table_view};

use crate::assign::Assign;
use crate::attribute_table::AttributeTable;
use crate::kinds::KEYS;
use crate::shapes::of_shape;
use host_net::Hosts;
use inv_any::AnyInv;
use inv_law::Invariant;
use std::alloc::{AllocError, Global};
use table_core::text_at;
use tmpl_reach::NonInterference;
use toml::Table;

impl AttributeTable for NonInterference {
    ghost use Rattle.attr_core.specs.NonInterference.{interference_form};

    ghost form = { interference_form };

    ghost attributes = { λ attributes. attributes };

    fn has_shape(table: &Table) -> bool {
        of_shape(table, &KEYS)
    }

    #[tactic(auto, using(crate::specs::inner::Walks::same_everywhere))]
    fn start(alloc: Global, hosts: &Hosts) -> Result<Self, AllocError> {
        NonInterference::new(alloc, hosts.count())
    }

    fn take(&mut self, alloc: Global, _: &Hosts, assign: &Assign<'_>) -> Result<bool, AllocError> {
        match interferes(assign.table) {
            Some(false) => self.set_unrelated(assign.host),
            Some(true) => *self = self.with_default(alloc, assign.host)?,
            None => return Ok(false),
        }
        Ok(true)
    }

    fn make(self) -> AnyInv {
        AnyInv::NonInterference(self)
    }
}

/// Returns whether the host is interfering, if the table specifies a kind.
#[tactic(auto, unfolding(crate::specs::Kinds::kind_in))]
fn interferes(table: &Table) -> Option<bool>
    ensures { option_map interference_of result ≡ kind_in interference_kinds (table_view table.now) }
{
    match text_at(table, "kind")? {
        "unrelated" => Some(false),
        "interfering" => Some(true),
        _ => None,
    }
}
