//! The names that refer to hosts in a description, place by place: in its assigns and in its flows.
ghost use Rattle.std.specs.Prelude.{◌≡◌, ◌++◌, flat_map, map, IfOk, OnOk};
ghost use Rattle.text_core.specs.FirstMatch.{numbered};
ghost use Rattle.desc_form.specs.inner.RawView.{assign_view, flow_view, invariant_view, raw_view};
ghost use Rattle.desc_form.specs.inner.NameUseView.{assign_name, mention_view};
ghost use Rattle.desc_form.specs.Mentions.{assign_names_of, flow_names_of, used_names};

use crate::raw::{RawAssign, RawDescription, RawFlow, RawInvariant};
use crate::refusal::Place;
use std::alloc::{AllocError, Global};

/// A name and its place: in a flow it is item 1 or 2, elsewhere item 0.
#[derive(Clone, Copy)]
pub struct NameUse<'a> {
    pub place: Place,
    pub item: u64,
    pub name: &'a str,
}

/// Returns the names that refer to hosts: in assigns, then in flows.
pub fn used_names<'a>(
    alloc: Global,
    written: &RawDescription<'a>,
) -> Result<Vec<NameUse<'a>>, AllocError>
    ensures { IfOk result (λ names. map mention_view names.items ≡ used_names (raw_view written.now)) }
{
    let mut names = Vec::new(alloc);
    push_used_names(&mut names, written)?;
    Ok(names)
}

#[tactic(auto, unfolding(crate::specs::Mentions::used_names))]
fn push_used_names<'a>(
    names: &mut Vec<NameUse<'a>>,
    written: &RawDescription<'a>,
) -> Result<(), AllocError>
    ensures { OnOk result (map mention_view names.new.items ≡ map mention_view names.old.items ++ used_names (raw_view written.now)) }
{
    push_assign_names(names, &written.invariants)?;
    push_flow_names(names, &written.flows)?;
    Ok(())
}

fn push_assign_names<'a>(
    names: &mut Vec<NameUse<'a>>,
    invariants: &[RawInvariant<'a>],
) -> Result<(), AllocError>
    ensures { OnOk result (map mention_view names.new.items ≡ map mention_view names.old.items
        ++ flat_map assign_names_of (numbered (map invariant_view invariants.now))) }
{
    for (index, invariant) in invariants.iter().enumerate() {
        push_names_of(names, index as u64 + 1, &invariant.assigns)?;
    }
    Ok(())
}

/// Appends the names in the assigns of the invariant with a number.
fn push_names_of<'a>(
    names: &mut Vec<NameUse<'a>>,
    number: u64,
    assigns: &[RawAssign<'a>],
) -> Result<(), AllocError>
    ensures { OnOk result (map mention_view names.new.items ≡ map mention_view names.old.items
        ++ map (assign_name number) (numbered (map assign_view assigns.now))) }
{
    for (index, assign) in assigns.iter().enumerate() {
        names.push(NameUse {
            place: Place::Assign(number, index as u64 + 1),
            item: 0,
            name: assign.host,
        })?;
    }
    Ok(())
}

fn push_flow_names<'a>(
    names: &mut Vec<NameUse<'a>>,
    flows: &[RawFlow<'a>],
) -> Result<(), AllocError>
    ensures { OnOk result (map mention_view names.new.items ≡ map mention_view names.old.items
        ++ flat_map flow_names_of (numbered (map flow_view flows.now))) }
{
    for (index, flow) in flows.iter().enumerate() {
        let place = Place::FlowAt(index as u64 + 1);
        names.push(NameUse {
            place,
            item: 1,
            name: flow.from,
        })?;
        names.push(NameUse {
            place,
            item: 2,
            name: flow.to,
        })?;
    }
    Ok(())
}
