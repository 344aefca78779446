//! The answer of `flows` on a table of nftables as JSON.

ghost use Rattle.std.specs.Prelude.{◌≡◌, ◌++◌, All, IfOk, OnOk, codes};
ghost use Rattle.json_core.specs.Json.{number_json};
ghost use Rattle.flows_json.specs.TableFlowsJson.{element_part, name_in, table_flows_json, table_pair_json, table_place_json, table_range_json};
ghost use Rattle.flows_json.specs.inner.Fitting.{FitsTableFlows};

use host_net::Hosts;
use json_core::{
    ItemWriter, push, push_array, push_bool, push_escaped, push_owner, push_rule_number,
};
use nft_flows::{PairTableFlows, TableFlowRange, TablePlace};
use nft_rules::Table;
use range_json::{push_header, push_header_or_null, push_range};
use std::alloc::{AllocError, Global};

/// Returns the flows that the table lets pass and its dead rules and elements as one object on one line.
pub fn table_flows_json(
    alloc: Global,
    table: &Table,
    hosts: &Hosts,
    flows: &[PairTableFlows],
    dead: &[TablePlace],
) -> Result<Vec<u8>, AllocError>
    requires { All (FitsTableFlows hosts.now) flows.now }
    ensures { IfOk result (λ text. text.items ≡ table_flows_json (name_in table.now) hosts.now flows.now dead.now) }
{
    let mut text = Vec::new(alloc);
    push_answer(&mut text, table, hosts, flows, dead)?;
    Ok(text)
}

fn push_answer(
    text: &mut Vec<u8>,
    table: &Table,
    hosts: &Hosts,
    flows: &[PairTableFlows],
    dead: &[TablePlace],
) -> Result<(), AllocError>
    requires { All (FitsTableFlows hosts.now) flows.now }
    ensures { OnOk result (text.new.items ≡ text.old.items ++ table_flows_json (name_in table.now) hosts.now flows.now dead.now) }
{
    push(text, b"{\"version\":1,\"pairs\":")?;
    push_array(text, &PairWriter { table, hosts }, flows)?;
    push(text, b",\"dead\":")?;
    push_array(text, &PlaceWriter { table }, dead)?;
    push(text, b"}\n")
}

// The writer of pairs of owners.
#[derive(Drop)]
struct PairWriter<'a, 'b> {
    table: &'a Table,
    hosts: &'b Hosts,
}

impl<'a, 'b> ItemWriter<PairTableFlows> for PairWriter<'a, 'b> {
    ghost use Rattle.flows_json.specs.TableFlowsJson.{name_in, table_pair_json};
    ghost use Rattle.flows_json.specs.inner.Fitting.{FitsTableFlows};

    ghost fits = { λ w flows. FitsTableFlows w.hosts.now flows };

    ghost item_json = { λ w flows. table_pair_json (name_in w.table.now) w.hosts.now flows };

    fn push(&self, text: &mut Vec<u8>, item: &PairTableFlows) -> Result<(), AllocError> {
        push_pair(text, self.table, self.hosts, item)
    }
}

fn push_pair(
    text: &mut Vec<u8>,
    table: &Table,
    hosts: &Hosts,
    flows: &PairTableFlows,
) -> Result<(), AllocError>
    requires { FitsTableFlows hosts.now flows.now }
    ensures { OnOk result (text.new.items ≡ text.old.items ++ table_pair_json (name_in table.now) hosts.now flows.now) }
{
    push(text, b"{\"from\":")?;
    push_owner(text, hosts, flows.from)?;
    push(text, b",\"to\":")?;
    push_owner(text, hosts, flows.to)?;
    push(text, b",\"services\":")?;
    push_array(text, &RangeWriter { table }, &flows.ranges)?;
    push(text, b"}")
}

// The writer of ranges of services.
#[derive(Drop)]
struct RangeWriter<'a> {
    table: &'a Table,
}

impl<'a> ItemWriter<TableFlowRange> for RangeWriter<'a> {
    ghost use Rattle.flows_json.specs.TableFlowsJson.{name_in, table_range_json};

    ghost fits = { λ _ _. Unit {0} };

    ghost item_json = { λ w range. table_range_json (name_in w.table.now) range };

    fn push(&self, text: &mut Vec<u8>, item: &TableFlowRange) -> Result<(), AllocError> {
        push_flow_range(text, self.table, item)
    }
}

fn push_flow_range(
    text: &mut Vec<u8>,
    table: &Table,
    flows: &TableFlowRange,
) -> Result<(), AllocError>
    ensures { OnOk result (text.new.items ≡ text.old.items ++ table_range_json (name_in table.now) flows.now) }
{
    push_range(text, flows.range)?;
    push(text, b",\"passes\":")?;
    push_header(text, flows.range.passes)?;
    push(text, b",\"drops\":")?;
    push_header_or_null(text, flows.range.stays)?;
    push(text, b",\"rules\":")?;
    push_array(text, &PlaceWriter { table }, &flows.deciders)?;
    push(text, b",\"default\":")?;
    push_bool(text, false)?;
    push(text, b"}")
}

// The writer of places of a table.
#[derive(Drop)]
struct PlaceWriter<'a> {
    table: &'a Table,
}

impl<'a> ItemWriter<TablePlace> for PlaceWriter<'a> {
    ghost use Rattle.flows_json.specs.TableFlowsJson.{name_in, table_place_json};

    ghost fits = { λ _ _. Unit {0} };

    ghost item_json = { λ w place. table_place_json (name_in w.table.now) place };

    fn push(&self, text: &mut Vec<u8>, item: &TablePlace) -> Result<(), AllocError> {
        push_table_place(text, self.table, *item)
    }
}

fn push_table_place(text: &mut Vec<u8>, table: &Table, place: TablePlace) -> Result<(), AllocError>
    ensures { OnOk result (text.new.items ≡ text.old.items ++ table_place_json (name_in table.now) place) }
{
    push(text, b"{\"chain\":")?;
    push_escaped(text, name_in(table, place.chain))?;
    push(text, b",\"rule\":")?;
    push_rule_number(text, place.rule)?;
    push_element(text, place.element)?;
    push(text, b"}")
}

/// Returns the name of a chain, or of the base chain.
fn name_in(table: &Table, chain: Option<u32>) -> &[u8]
    ensures { result.now ≡ name_in table.now chain }
{
    match chain {
        None => b"forward",
        Some(chain) => match table.chains.get(chain as usize) {
            Some(chain) => &chain.name,
            None => b"",
        },
    }
}

fn push_element(text: &mut Vec<u8>, element: Option<u32>) -> Result<(), AllocError>
    ensures { OnOk result (text.new.items ≡ text.old.items ++ element_part element) }
{
    match element {
        None => Ok(()),
        Some(element) => push_element_number(text, element),
    }
}

fn push_element_number(text: &mut Vec<u8>, element: u32) -> Result<(), AllocError>
    ensures { OnOk result (text.new.items ≡ text.old.items ++ (codes ",\"element\":" ++ number_json element)) }
{
    push(text, b",\"element\":")?;
    push_rule_number(text, element)
}
