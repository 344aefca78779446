//! Subnets: the kind of a host, and the number of its subnet.
ghost use Rattle.std.specs.Prelude.{◌≡◌, Some};
ghost use Rattle.attr_core.specs.Kinds.{kind_named};
ghost use Rattle.attr_core.specs.Subnets.{net_kinds, subnets_attribute};
ghost use Rattle.toml.specs.View.{table_view};

use crate::assign::Assign;
use crate::attribute_table::AttributeTable;
use crate::kinds::KIND;
use crate::shapes::{HOST, of_shape};
use host_net::Hosts;
use inv_any::AnyInv;
use inv_law::EdgeWise;
use std::alloc::{AllocError, Global};
use table_core::{Key, Kind, number_at, text_at};
use tmpl_zones::{NetKind, Subnets};
use toml::Table;

const KEYS: [Key; 3] = [HOST, KIND, Key::Optional("number", Kind::Number(u16::MAX))];

impl AttributeTable for Subnets {
    ghost use Rattle.attr_core.specs.Subnets.{subnets_form};

    ghost form = { subnets_form };

    ghost attributes = { λ attributes. attributes };

    fn has_shape(table: &Table) -> bool {
        of_shape(table, &KEYS)
    }

    #[tactic(auto, using(crate::specs::inner::Walks::same_everywhere))]
    fn start(alloc: Global, hosts: &Hosts) -> Result<Self, AllocError> {
        Subnets::new(alloc, hosts.count())
    }

    fn take(&mut self, _: Global, _: &Hosts, assign: &Assign<'_>) -> Result<bool, AllocError> {
        let Some(kind) = read_kind(assign.table) else {
            return Ok(false);
        };
        self.set(assign.host, kind);
        Ok(true)
    }

    fn make(self) -> AnyInv {
        AnyInv::Subnets(EdgeWise::new(self))
    }
}

/// Returns the kind that the table specifies.
#[tactic(auto, unfolding(crate::specs::Kinds::kind_in, crate::specs::Subnets::subnets_attribute))]
fn read_kind(table: &Table) -> Option<NetKind>
    ensures { result ≡ subnets_attribute (table_view table.now) }
{
    kind_named(
        number_at(table, "number", u16::MAX),
        text_at(table, "kind")?,
    )
}

/// Returns the kind of a word, with a number or without one.
fn kind_named(number: Option<u16>, word: &str) -> Option<NetKind>
    ensures { result ≡ kind_named (net_kinds number) word.now }
{
    match number {
        Some(number) => numbered(number, word),
        None if word == "unassigned" => Some(NetKind::Unassigned),
        None => None,
    }
}

fn numbered(number: u16, word: &str) -> Option<NetKind>
    ensures { result ≡ kind_named (net_kinds (Some number)) word.now }
{
    match word {
        "subnet" => Some(NetKind::Subnet(number)),
        "border" => Some(NetKind::Border(number)),
        _ => None,
    }
}
