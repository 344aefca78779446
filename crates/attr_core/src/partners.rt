//! Partners: the hosts from which a host receives packets.
ghost use Rattle.std.specs.Prelude.{◌≡◌, ◌<◌, Some, None, if◌then◌else◌, map, option_map, length, slice_set, IfOk};
ghost use Rattle.attr_core.specs.Kinds.{kind_named};
ghost use Rattle.attr_core.specs.Partners.{listless_kinds, master_of, partner_of};
ghost use Rattle.toml.specs.View.{view};

use crate::assign::Assign;
use crate::attribute_table::AttributeTable;
use crate::kinds::KIND;
use crate::peers::peer;
use crate::shapes::{HOST, of_shape};
use host_net::Hosts;
use inv_any::AnyInv;
use inv_law::{EdgeRule, EdgeWise};
use std::alloc::{AllocError, Global};
use table_core::{Key, Kind, list_at, text_at};
use tmpl_zones::Partners;
use toml::{Table, Value};

const KEYS: [Key; 3] = [HOST, KIND, Key::Optional("from", Kind::List)];

impl AttributeTable for Partners {
    ghost use Rattle.attr_core.specs.Partners.{partners_form};

    ghost form = { partners_form };

    ghost attributes = { λ attributes. attributes };

    fn has_shape(table: &Table) -> bool {
        of_shape(table, &KEYS)
    }

    #[tactic(auto, using(crate::specs::inner::Walks::same_everywhere))]
    fn start(alloc: Global, hosts: &Hosts) -> Result<Self, AllocError> {
        Partners::new(alloc, hosts.count())
    }

    #[tactic(auto, unfolding(crate::specs::Partners::partners_attribute))]
    fn take(
        &mut self,
        alloc: Global,
        hosts: &Hosts,
        assign: &Assign<'_>,
    ) -> Result<bool, AllocError> {
        let Some(word) = text_at(assign.table, "kind") else {
            return Ok(false);
        };
        match list_at(assign.table, "from") {
            Some(listed) => Ok(put_master(self, hosts, assign.host, word, listed)),
            None => put_listless(self, alloc, assign.host, word),
        }
    }

    fn make(self) -> AnyInv {
        AnyInv::Partners(EdgeWise::new(self))
    }
}

/// Sets the kind of the host, for a word without a list, or returns false if the word is unknown.
fn put_listless(
    rule: &mut Partners,
    alloc: Global,
    host: u16,
    word: &str,
) -> Result<bool, AllocError>
    requires { host < length rule.old }
    ensures size { length rule.new ≡ length rule.old }
    ensures put { IfOk result (λ good. option_map (slice_set rule.old host) (kind_named listless_kinds word.now)
        ≡ (if good then Some rule.new else None)) }
{
    match word {
        "care" => rule.set_care(host),
        "dontcare" => *rule = rule.with_default(alloc, host)?,
        _ => return Ok(false),
    }
    Ok(true)
}

/// Makes the host a master, or returns false if the word is not that of a master, or one of the
/// listed hosts is not another host.
fn put_master(rule: &mut Partners, hosts: &Hosts, host: u16, word: &str, listed: &[Value]) -> bool
    requires size { length rule.old ≡ length hosts.now }
    requires host { host < length hosts.now }
    ensures size { length rule.new ≡ length rule.old }
    ensures put { option_map (slice_set rule.old host) (partner_of hosts.now host (Some (map view listed.now)) word.now)
        ≡ (if result then Some rule.new else None) }
{
    if word != "master" {
        return false;
    }
    allow_all(rule, hosts, host, listed)
}

/// Makes the host a master that receives exactly from the listed hosts, or returns false if one of
/// them is not another host.
fn allow_all(rule: &mut Partners, hosts: &Hosts, host: u16, listed: &[Value]) -> bool
    requires size { length rule.old ≡ length hosts.now }
    requires host { host < length hosts.now }
    ensures size { length rule.new ≡ length rule.old }
    ensures allowed { option_map (slice_set rule.old host) (master_of hosts.now host (map view listed.now))
        ≡ (if result then Some rule.new else None) }
{
    rule.set_master(host);
    for value in listed {
        let Some(sender) = peer(hosts, host, value) else {
            return false;
        };
        rule.allow(sender, host);
    }
    true
}
