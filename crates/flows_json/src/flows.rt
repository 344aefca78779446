//! The answer of `flows` as JSON.

ghost use Rattle.std.specs.Prelude.{◌≡◌, ◌++◌, All, IfOk, OnOk};
ghost use Rattle.rules_space.specs.RulesView.{rules_of};
ghost use Rattle.flows_json.specs.FlowsJson.{entry_json, flow_range_json, flows_json, pair_flows_json, place_json, rule_json};
ghost use Rattle.flows_json.specs.inner.Fitting.{FitsFlows};

use decide_core::{FlowRange, PairFlows};
use host_net::Hosts;
use ipt_rules::{Place, Ruleset};
use json_core::{
    ItemWriter, push, push_array, push_bool, push_escaped, push_owner, push_rule_number,
};
use range_json::{push_header, push_header_or_null, push_range};
use rules_space::RulesRef;
use std::alloc::{AllocError, Global};

/// Returns the flows that the rules let pass and the dead rules as one object on one line.
pub fn flows_json(
    alloc: Global,
    rules: &RulesRef<'_>,
    hosts: &Hosts,
    flows: &[PairFlows],
    dead: &[Place],
) -> Result<Vec<u8>, AllocError>
    requires { All (FitsFlows hosts.now) flows.now }
    ensures { IfOk result (λ text. text.items ≡ flows_json (rules_of rules.now) hosts.now flows.now dead.now) }
{
    let mut text = Vec::new(alloc);
    push_answer(&mut text, rules, hosts, flows, dead)?;
    Ok(text)
}

fn push_answer(
    text: &mut Vec<u8>,
    rules: &RulesRef<'_>,
    hosts: &Hosts,
    flows: &[PairFlows],
    dead: &[Place],
) -> Result<(), AllocError>
    requires { All (FitsFlows hosts.now) flows.now }
    ensures { OnOk result (text.new.items ≡ text.old.items ++ flows_json (rules_of rules.now) hosts.now flows.now dead.now) }
{
    push(text, b"{\"version\":1,\"pairs\":")?;
    push_array(text, &PairWriter { rules, hosts }, flows)?;
    push(text, b",\"dead\":")?;
    push_array(text, &PlaceWriter { rules }, dead)?;
    push(text, b"}\n")
}

// The writer of pairs of owners.
#[derive(Drop)]
struct PairWriter<'a, 'b> {
    rules: &'a RulesRef<'a>,
    hosts: &'b Hosts,
}

impl<'a, 'b> ItemWriter<PairFlows> for PairWriter<'a, 'b> {
    ghost use Rattle.rules_space.specs.RulesView.{rules_of};
    ghost use Rattle.flows_json.specs.FlowsJson.{pair_flows_json};
    ghost use Rattle.flows_json.specs.inner.Fitting.{FitsFlows};

    ghost fits = { λ w flows. FitsFlows w.hosts.now flows };

    ghost item_json = { λ w flows. pair_flows_json (rules_of w.rules.now) w.hosts.now flows };

    fn push(&self, text: &mut Vec<u8>, item: &PairFlows) -> Result<(), AllocError> {
        push_pair(text, self.rules, self.hosts, item)
    }
}

fn push_pair(
    text: &mut Vec<u8>,
    rules: &RulesRef<'_>,
    hosts: &Hosts,
    flows: &PairFlows,
) -> Result<(), AllocError>
    requires { FitsFlows hosts.now flows.now }
    ensures { OnOk result (text.new.items ≡ text.old.items ++ pair_flows_json (rules_of rules.now) hosts.now flows.now) }
{
    push(text, b"{\"from\":")?;
    push_owner(text, hosts, flows.from)?;
    push(text, b",\"to\":")?;
    push_owner(text, hosts, flows.to)?;
    push(text, b",\"services\":")?;
    push_array(text, &FlowRangeWriter { rules }, &flows.ranges)?;
    push(text, b"}")
}

// The writer of ranges of services.
#[derive(Drop)]
struct FlowRangeWriter<'a> {
    rules: &'a RulesRef<'a>,
}

impl<'a> ItemWriter<FlowRange> for FlowRangeWriter<'a> {
    ghost use Rattle.rules_space.specs.RulesView.{rules_of};
    ghost use Rattle.flows_json.specs.FlowsJson.{flow_range_json};

    ghost fits = { λ _ _. Unit {0} };

    ghost item_json = { λ w range. flow_range_json (rules_of w.rules.now) range };

    fn push(&self, text: &mut Vec<u8>, item: &FlowRange) -> Result<(), AllocError> {
        push_flow_range(text, self.rules, item)
    }
}

fn push_flow_range(
    text: &mut Vec<u8>,
    rules: &RulesRef<'_>,
    flows: &FlowRange,
) -> Result<(), AllocError>
    ensures { OnOk result (text.new.items ≡ text.old.items ++ flow_range_json (rules_of rules.now) flows.now) }
{
    push_range(text, flows.range)?;
    push(text, b",\"passes\":")?;
    push_header(text, flows.range.passes)?;
    push(text, b",\"drops\":")?;
    push_header_or_null(text, flows.range.stays)?;
    push(text, b",\"rules\":")?;
    push_array(text, &PlaceWriter { rules }, &flows.deciders.places)?;
    push(text, b",\"default\":")?;
    push_bool(text, flows.deciders.by_default)?;
    push(text, b"}")
}

// The writer of places of rules.
#[derive(Drop)]
struct PlaceWriter<'a> {
    rules: &'a RulesRef<'a>,
}

impl<'a> ItemWriter<Place> for PlaceWriter<'a> {
    ghost use Rattle.rules_space.specs.RulesView.{rules_of};
    ghost use Rattle.flows_json.specs.FlowsJson.{place_json};

    ghost fits = { λ _ _. Unit {0} };

    ghost item_json = { λ w place. place_json (rules_of w.rules.now) place };

    fn push(&self, text: &mut Vec<u8>, item: &Place) -> Result<(), AllocError> {
        push_place(text, self.rules, *item)
    }
}

fn push_place(text: &mut Vec<u8>, rules: &RulesRef<'_>, place: Place) -> Result<(), AllocError>
    ensures { OnOk result (text.new.items ≡ text.old.items ++ place_json (rules_of rules.now) place) }
{
    match rules {
        RulesRef::Ipt(rules) => push_rule(text, rules, place),
        RulesRef::Ofp(_) => push_entry(text, place),
    }
}

fn push_rule(text: &mut Vec<u8>, rules: &Ruleset, place: Place) -> Result<(), AllocError>
    ensures { OnOk result (text.new.items ≡ text.old.items ++ rule_json rules.now place) }
{
    push(text, b"{\"chain\":")?;
    push_escaped(text, rules.chain_name(place.chain))?;
    push(text, b",\"rule\":")?;
    push_rule_number(text, place.rule)?;
    push(text, b"}")
}

fn push_entry(text: &mut Vec<u8>, place: Place) -> Result<(), AllocError>
    ensures { OnOk result (text.new.items ≡ text.old.items ++ entry_json place) }
{
    push(text, b"{\"entry\":")?;
    push_rule_number(text, place.rule)?;
    push(text, b"}")
}
