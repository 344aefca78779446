//! The answer of `changes` as JSON.

ghost use Rattle.std.specs.Prelude.{◌≡◌, ◌<◌, ◌++◌, All, IfOk, OnOk, length};
ghost use Rattle.changes_json.specs.ChangesJson.{change_json, changed_range_json, changes_json, kind_text, named_json, old_host_json, weaker_json};
ghost use Rattle.changes_json.specs.inner.Fitting.{FitsChange, FitsOwner, FitsWeaker, FitsWeakening};

use crate::weakened::Weakened;
use crate::weakening::Weakening;
use change_core::{Change, ChangeKind, NamedOwner};
use host_net::Hosts;
use json_core::{
    ItemWriter, push, push_array, push_flow, push_flows, push_host, push_numbers, push_string,
};
use pass_core::PassingRange;
use range_json::{push_header, push_header_or_null, push_range};
use std::alloc::{AllocError, Global};

/// Returns the changes as one object on one line.
pub fn changes_json(
    alloc: Global,
    new: &Hosts,
    old: &Hosts,
    changes: &[Change],
    weakening: &Weakening,
) -> Result<Vec<u8>, AllocError>
    requires changes { All (FitsChange new.now old.now) changes.now }
    requires weakening { FitsWeakening new.now old.now weakening.now }
    ensures { IfOk result (λ text. text.items ≡ changes_json new.now old.now changes.now weakening.now) }
{
    let mut text = Vec::new(alloc);
    push_changes(&mut text, new, old, changes, weakening)?;
    Ok(text)
}

fn push_changes(
    text: &mut Vec<u8>,
    new: &Hosts,
    old: &Hosts,
    changes: &[Change],
    weakening: &Weakening,
) -> Result<(), AllocError>
    requires changes { All (FitsChange new.now old.now) changes.now }
    requires weakening { FitsWeakening new.now old.now weakening.now }
    ensures { OnOk result (text.new.items ≡ text.old.items ++ changes_json new.now old.now changes.now weakening.now) }
{
    push(text, b"{\"version\":1,\"changes\":")?;
    push_array(text, &ChangeWriter { new, old }, changes)?;
    push(text, b",\"weaker\":")?;
    push_array(text, &WeakerWriter { new, old }, &weakening.weaker)?;
    push(text, b",\"gaps\":")?;
    push_flows(text, new, &weakening.gaps)?;
    push(text, b"}\n")
}

// The writer of changes.
#[derive(Drop)]
struct ChangeWriter<'a> {
    new: &'a Hosts,
    old: &'a Hosts,
}

impl<'a> ItemWriter<Change> for ChangeWriter<'a> {
    ghost use Rattle.changes_json.specs.ChangesJson.{change_json};
    ghost use Rattle.changes_json.specs.inner.Fitting.{FitsChange};

    ghost fits = { λ w change. FitsChange w.new.now w.old.now change };

    ghost item_json = { λ w change. change_json w.new.now w.old.now change };

    fn push(&self, text: &mut Vec<u8>, item: &Change) -> Result<(), AllocError> {
        push_change(text, self.new, self.old, item)
    }
}

fn push_change(
    text: &mut Vec<u8>,
    new: &Hosts,
    old: &Hosts,
    change: &Change,
) -> Result<(), AllocError>
    requires { FitsChange new.now old.now change.now }
    ensures { OnOk result (text.new.items ≡ text.old.items ++ change_json new.now old.now change.now) }
{
    push(text, b"{\"from\":")?;
    push_named(text, new, old, change.from)?;
    push(text, b",\"to\":")?;
    push_named(text, new, old, change.to)?;
    push(text, b",\"change\":")?;
    push_string(text, kind_text(change.kind))?;
    push(text, b",\"services\":")?;
    push_array(text, &RangeWriter, &change.ranges)?;
    push(text, b"}")
}

// Appends an owner by its name, or null for the addresses that no host owns.
fn push_named(
    text: &mut Vec<u8>,
    new: &Hosts,
    old: &Hosts,
    owner: NamedOwner,
) -> Result<(), AllocError>
    requires { FitsOwner new.now old.now owner }
    ensures { OnOk result (text.new.items ≡ text.old.items ++ named_json new.now old.now owner) }
{
    match owner {
        NamedOwner::New(host) => push_host(text, new, host),
        NamedOwner::Old(host) => push_old_host(text, old, host),
        NamedOwner::Nobody => push(text, b"null"),
    }
}

fn push_old_host(text: &mut Vec<u8>, old: &Hosts, host: u16) -> Result<(), AllocError>
    requires { host < length old.now }
    ensures { OnOk result (text.new.items ≡ text.old.items ++ old_host_json old.now host) }
{
    push(text, b"{\"old\":")?;
    push_host(text, old, host)?;
    push(text, b"}")
}

fn kind_text(kind: ChangeKind) -> &'static [u8]
    ensures { result.now ≡ kind_text kind }
{
    match kind {
        ChangeKind::FlowComes => b"flow comes",
        ChangeKind::FlowGoes => b"flow goes",
        ChangeKind::AnswersCome => b"answers come",
        ChangeKind::AnswersGo => b"answers go",
    }
}

// The writer of ranges of services.
#[derive(Drop)]
struct RangeWriter;

impl ItemWriter<PassingRange> for RangeWriter {
    ghost use Rattle.changes_json.specs.ChangesJson.{changed_range_json};

    ghost fits = { λ _ _. Unit {0} };

    ghost item_json = { λ _ range. changed_range_json range };

    fn push(&self, text: &mut Vec<u8>, item: &PassingRange) -> Result<(), AllocError> {
        push_changed_range(text, *item)
    }
}

fn push_changed_range(text: &mut Vec<u8>, range: PassingRange) -> Result<(), AllocError>
    ensures { OnOk result (text.new.items ≡ text.old.items ++ changed_range_json range) }
{
    push_range(text, range)?;
    push(text, b",\"packet\":")?;
    push_header(text, range.passes)?;
    push(text, b",\"other\":")?;
    push_header_or_null(text, range.stays)?;
    push(text, b"}")
}

// The writer of weaker flows.
#[derive(Drop)]
struct WeakerWriter<'a> {
    new: &'a Hosts,
    old: &'a Hosts,
}

impl<'a> ItemWriter<Weakened> for WeakerWriter<'a> {
    ghost use Rattle.changes_json.specs.ChangesJson.{weaker_json};
    ghost use Rattle.changes_json.specs.inner.Fitting.{FitsWeaker};

    ghost fits = { λ w weaker. FitsWeaker w.new.now w.old.now weaker.flows };

    ghost item_json = { λ w weaker. weaker_json w.new.now w.old.now weaker };

    fn push(&self, text: &mut Vec<u8>, item: &Weakened) -> Result<(), AllocError> {
        push_weaker(text, self.new, self.old, item)
    }
}

fn push_weaker(
    text: &mut Vec<u8>,
    new: &Hosts,
    old: &Hosts,
    weaker: &Weakened,
) -> Result<(), AllocError>
    requires { FitsWeaker new.now old.now weaker.now.flows }
    ensures { OnOk result (text.new.items ≡ text.old.items ++ weaker_json new.now old.now weaker.now) }
{
    push(text, b"{\"flow\":")?;
    push_flow(text, new, weaker.flows.flow)?;
    push(text, b",\"old\":")?;
    push_flow(text, old, weaker.flows.old)?;
    push(text, b",\"denied_by\":")?;
    push_numbers(text, &weaker.denied_by)?;
    push(text, b"}")
}
