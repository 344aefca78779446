//! Tainting: the labels of a host, and those that it removes from the data it sends. The number of
//! a label of an invariant is the index of its first appearance.
ghost use Rattle.std.specs.Prelude.{◌≡◌, ◌<◌, ◌≤◌, IsTrue, map, option_map, length, IfOk, IfSome};
ghost use Rattle.attr_core.specs.inner.LabelWalk.{all_labels, and_label, are_among, labelled, labels_at, numbered};
ghost use Rattle.attr_core.specs.Tainting.{label_in};
ghost use Rattle.std.specs.List.{position_from};
ghost use Rattle.std.specs.Str.{bytes_eq};
ghost use Rattle.tmpl_levels.specs.Tainting.{TakesOffItsOwn};
ghost use Rattle.toml.specs.View.{view, table_view};

use crate::assign::Assign;
use crate::attribute_table::AttributeTable;
use crate::shapes::{HOST, of_shape};
use host_net::{Hosts, Name};
use inv_any::AnyInv;
use inv_law::EdgeWise;
use std::alloc::{AllocError, Global};
use std::marker::Model;
use table_core::{Key, Kind, list_or_empty};
use tmpl_levels::Tainting;
use toml::{Table, Value};

const KEYS: [Key; 3] = [
    HOST,
    Key::Optional("taints", Kind::Texts),
    Key::Optional("untaints", Kind::Texts),
];

// The labels so far, each with its index as its number, and the label sets of each host.
#[derive(Drop)]
pub(crate) struct TaintedHosts {
    labels: Vec<Name>,
    hosts: Tainting,
}

impl Model for TaintedHosts {
    ghost use Rattle.std.specs.Prelude.{length, ◌≤◌};
    ghost use Rattle.attr_core.specs.inner.TaintedView.{Tainted};

    ghost Value = { Tainted };

    ghost view = { λ tainted. record { labels = tainted.labels.items; hosts = tainted.hosts } };

    ghost invariant = { λ tainted. length tainted.labels.items ≤ 64 };
}

impl AttributeTable for TaintedHosts {
    ghost use Rattle.attr_core.specs.Tainting.{labels_of, tainting_form};

    ghost form = { tainting_form };

    ghost attributes = { λ tainted. tainted.hosts };

    ghost keeps = { λ earlier tainted. tainted.labels ≡ labels_of earlier };

    fn has_shape(table: &Table) -> bool {
        of_shape(table, &KEYS)
    }

    #[tactic(auto, using(crate::specs::inner::Walks::same_everywhere))]
    fn start(alloc: Global, hosts: &Hosts) -> Result<Self, AllocError> {
        Ok(TaintedHosts {
            labels: Vec::new(alloc),
            hosts: Tainting::new(alloc, hosts.count())?,
        })
    }

    fn take(&mut self, _: Global, _: &Hosts, assign: &Assign<'_>) -> Result<bool, AllocError> {
        let Some((taints, untaints)) = labelled(&mut self.labels, assign.table)? else {
            return Ok(false);
        };
        self.hosts.set(assign.host, taints, untaints);
        Ok(true)
    }

    fn make(self) -> AnyInv {
        AnyInv::Tainting(EdgeWise::new(self.hosts))
    }
}

// Returns the labels that the table specifies.
#[tactic(auto, unfolding(crate::specs::inner::LabelWalk::labelled))]
fn labelled(labels: &mut Vec<Name>, table: &Table) -> Result<Option<(u64, u64)>, AllocError>
    requires { length labels.old.items ≤ 64 }
    ensures few { length labels.new.items ≤ 64 }
    ensures said { IfOk result (λ said. labelled labels.old.items (table_view table.now)
        ≡ option_map (λ set. record { labels = labels.new.items; attribute = record { taints = set.0; untaints = set.1 } }) said) }
    ensures own { IfOk result (λ said. IfSome said (λ set. TakesOffItsOwn (record { taints = set.0; untaints = set.1 }))) }
{
    let Some(taints) = labels_at(labels, table, "taints")? else {
        return Ok(None);
    };
    let Some(untaints) = labels_at(labels, table, "untaints")? else {
        return Ok(None);
    };
    if are_among(untaints, taints) {
        Ok(Some((taints, untaints)))
    } else {
        Ok(None)
    }
}

#[tactic(auto, using(tmpl_levels::specs::laws::TaintingLaws::own_by_mask))]
fn are_among(untaints: u64, taints: u64) -> bool
    ensures said { result ≡ are_among untaints taints }
    ensures own { IsTrue result → TakesOffItsOwn (record { taints = taints; untaints = untaints }) }
{
    untaints & taints == untaints
}

// Returns the set of the labels at a key.
#[tactic(auto, unfolding(crate::specs::inner::LabelWalk::labels_at))]
fn labels_at(labels: &mut Vec<Name>, table: &Table, key: &str) -> Result<Option<u64>, AllocError>
    requires { length labels.old.items ≤ 64 }
    ensures few { length labels.new.items ≤ 64 }
    ensures set { IfOk result (λ set. labels_at key.now labels.old.items (table_view table.now)
        ≡ option_map (λ bits. record { labels = labels.new.items; bits = bits }) set) }
{
    match list_or_empty(table, key) {
        Some(values) => all_labels(labels, values),
        None => Ok(None),
    }
}

#[tactic(auto, unfolding(crate::specs::inner::LabelWalk::all_labels))]
fn all_labels(labels: &mut Vec<Name>, values: &[Value]) -> Result<Option<u64>, AllocError>
    requires { length labels.old.items ≤ 64 }
    ensures few { length labels.new.items ≤ 64 }
    ensures set { IfOk result (λ set. all_labels labels.old.items (map view values.now)
        ≡ option_map (λ bits. record { labels = labels.new.items; bits = bits }) set) }
{
    let mut bits = 0;
    for value in values {
        match and_label(labels, bits, value)? {
            Some(more) => bits = more,
            None => return Ok(None),
        }
    }
    Ok(Some(bits))
}

// Returns the set with the label of an element.
#[tactic(auto, unfolding(crate::specs::inner::LabelWalk::and_label))]
fn and_label(labels: &mut Vec<Name>, bits: u64, value: &Value) -> Result<Option<u64>, AllocError>
    requires { length labels.old.items ≤ 64 }
    ensures few { length labels.new.items ≤ 64 }
    ensures set { IfOk result (λ set. and_label (record { labels = labels.old.items; bits = bits }) (view value.now)
        ≡ option_map (λ more. record { labels = labels.new.items; bits = more }) set) }
{
    let Some(label) = label_in(value) else {
        return Ok(None);
    };
    let Some(number) = numbered(labels, label)? else {
        return Ok(None);
    };
    Ok(Some(bits | 1 << number))
}

#[tactic(auto, unfolding(crate::specs::Tainting::label_in))]
fn label_in(value: &Value) -> Option<Name>
    ensures { result ≡ label_in (view value.now) }
{
    Name::new(value.as_str()?.as_bytes())
}

// Returns the number of the label: its existing number, or the next one.
#[tactic(auto, unfolding(crate::specs::inner::LabelWalk::numbered, crate::specs::inner::LabelWalk::new_label))]
fn numbered(labels: &mut Vec<Name>, label: Name) -> Result<Option<u32>, AllocError>
    requires { length labels.old.items ≤ 64 }
    ensures few { length labels.new.items ≤ 64 }
    ensures below { IfOk result (λ found. IfSome found (λ number. number < 64)) }
    ensures number { IfOk result (λ found. numbered labels.old.items label
        ≡ option_map (λ number. record { labels = labels.new.items; number = number }) found) }
{
    if let Some(number) = position(labels, label) {
        return Ok(Some(number as u32));
    }
    if labels.len() == 64 {
        return Ok(None);
    }
    labels.push(label)?;
    Ok(Some(labels.len() as u32 - 1))
}

fn position(labels: &[Name], label: Name) -> Option<usize>
    ensures value { result ≡ position_from (bytes_eq label) 0 labels.now }
    ensures below { IfSome result (λ place. place < length labels.now) }
{
    labels.iter().position(|known| label == *known)
}
