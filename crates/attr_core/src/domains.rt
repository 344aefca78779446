//! Domains: the position of a host in the hierarchy, and its trust.
ghost use Rattle.std.specs.Prelude.{◌≡◌, ◌≤◌, IfSome, option_map, length, codes, unwrap_or};
ghost use Rattle.attr_core.specs.Domains.{domains_attribute};
ghost use Rattle.std.specs.List.{list_all};
ghost use Rattle.table_core.specs.Tables.{number_at};
ghost use Rattle.text_core.specs.Name.{is_name};
ghost use Rattle.tmpl_domains.specs.Domains.{IsPlace};
ghost use Rattle.tmpl_domains.specs.Path.{is_path, segments};
ghost use Rattle.toml.specs.View.{table_view};

use crate::assign::Assign;
use crate::attribute_table::AttributeTable;
use crate::shapes::{HOST, of_shape};
use host_net::{Hosts, Name};
use inv_any::AnyInv;
use inv_law::EdgeWise;
use std::alloc::{AllocError, Global};
use table_core::{Key, Kind, number_at, text_at};
use tmpl_domains::Domains;
use toml::Table;

/// The greatest trust of a host.
const TRUST_LIMIT: u16 = 16;

const KEYS: [Key; 3] = [
    HOST,
    Key::Needed("path", Kind::Text),
    Key::Optional("trust", Kind::Number(TRUST_LIMIT)),
];

impl AttributeTable for Domains {
    ghost use Rattle.attr_core.specs.Domains.{domains_form};

    ghost form = { domains_form };

    ghost attributes = { λ attributes. attributes };

    fn has_shape(table: &Table) -> bool {
        of_shape(table, &KEYS)
    }

    #[tactic(auto, using(crate::specs::inner::Walks::same_everywhere))]
    fn start(alloc: Global, hosts: &Hosts) -> Result<Self, AllocError> {
        Domains::new(alloc, hosts.count())
    }

    fn take(&mut self, _: Global, _: &Hosts, assign: &Assign<'_>) -> Result<bool, AllocError> {
        let Some((path, trust)) = read_attribute(assign.table) else {
            return Ok(false);
        };
        self.set(assign.host, path, trust)?;
        Ok(true)
    }

    fn make(self) -> AnyInv {
        AnyInv::Domains(EdgeWise::new(self))
    }
}

#[tactic(auto, unfolding(crate::specs::Domains::domains_attribute))]
fn read_attribute(table: &Table) -> Option<(&[u8], u8)>
    ensures place { option_map (λ said. record { path = segments said.0.now; trust = said.1 }) result
        ≡ domains_attribute (table_view table.now) }
    ensures may { IfSome result (λ said. IsPlace (record { path = segments said.0.now; trust = said.1 })) }
{
    let path = text_at(table, "path")?.as_bytes();
    if is_path(path) {
        Some((path, trust_in(table)))
    } else {
        None
    }
}

fn trust_in(table: &Table) -> u8
    ensures value { result ≡ unwrap_or (number_at 16 (codes "trust") (table_view table.now)) 0 }
    ensures small { result ≤ 16 }
{
    match number_at(table, "trust", TRUST_LIMIT) {
        Some(trust) => trust as u8,
        None => 0,
    }
}

fn is_path(path: &[u8]) -> bool
    ensures { result ≡ is_path path.now }
{
    segment_count(path) <= 16 && are_names(path)
}

fn segment_count(path: &[u8]) -> usize
    ensures { result ≡ length (segments path.now) }
{
    path.split(|b| *b == b'/').count()
}

// Whether each segment is a name.
fn are_names(path: &[u8]) -> bool
    ensures { result ≡ list_all is_name (segments path.now) }
{
    path.split(|b| *b == b'/')
        .all(|segment| Name::new(segment).is_some())
}
