//! No-reach: the hosts that a host must not reach.
ghost use Rattle.std.specs.Prelude.{◌≡◌, ◌<◌, Some, None, if◌then◌else◌, map, option_map, length, slice_set};
ghost use Rattle.attr_core.specs.NoReach.{all_denied};
ghost use Rattle.toml.specs.View.{view};

use crate::assign::Assign;
use crate::attribute_table::AttributeTable;
use crate::peers::peer;
use crate::shapes::{HOST, of_shape};
use host_net::Hosts;
use inv_any::AnyInv;
use std::alloc::{AllocError, Global};
use table_core::{Key, Kind, list_at};
use tmpl_reach::NoReach;
use toml::{Table, Value};

const KEYS: [Key; 2] = [HOST, Key::Needed("deny", Kind::List)];

impl AttributeTable for NoReach {
    ghost use Rattle.attr_core.specs.NoReach.{noreach_form};

    ghost form = { noreach_form };

    ghost attributes = { λ attributes. attributes };

    fn has_shape(table: &Table) -> bool {
        of_shape(table, &KEYS)
    }

    fn start(alloc: Global, hosts: &Hosts) -> Result<Self, AllocError> {
        NoReach::new(alloc, hosts.count())
    }

    #[tactic(auto, unfolding(crate::specs::NoReach::noreach_attribute))]
    fn take(&mut self, _: Global, hosts: &Hosts, assign: &Assign<'_>) -> Result<bool, AllocError> {
        match list_at(assign.table, "deny") {
            Some(listed) => Ok(deny_all(self, hosts, assign.host, listed)),
            None => Ok(false),
        }
    }

    fn make(self) -> AnyInv {
        AnyInv::NoReach(self)
    }
}

// Lets the host deny exactly the listed hosts, or returns false if one of them is not another host.
fn deny_all(rule: &mut NoReach, hosts: &Hosts, host: u16, listed: &[Value]) -> bool
    requires size { length rule.old ≡ length hosts.now }
    requires host { host < length hosts.now }
    ensures size { length rule.new ≡ length rule.old }
    ensures denied { option_map (slice_set rule.old host) (all_denied hosts.now host (map view listed.now))
        ≡ (if result then Some rule.new else None) }
{
    rule.clear(host);
    for value in listed {
        let Some(other) = peer(hosts, host, value) else {
            return false;
        };
        rule.deny(host, other);
    }
    true
}
