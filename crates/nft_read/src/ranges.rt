//! The ranges of the numbers in a table, which are those of their types. A call makes them known, and
//! costs a walk over the table.

ghost use Rattle.std.specs.Prelude.{◌<◌, ◌^◌};
ghost use Rattle.std.specs.List.{AllByRecursion};
ghost use Rattle.nft_read.specs.Reading.{ChainFits, ElementFits, IsTable, PortsFit, RuleFits, ServiceFits};

use nft_rules::{Chain, Element, PortMatch, Rule, ServiceMatch};
use nft_space::LoadableTable;

/// Makes known that the addresses and ports of the table are in range.
pub fn table_ranges(table: &LoadableTable)
    ensures { IsTable table.now }
{
    let table = table.table();
    chain_ranges(&table.chains);
    rule_ranges(&table.forward);
}

fn chain_ranges(chains: &[Chain])
    ensures { AllByRecursion ChainFits chains.now }
{
    for chain in chains {
        rule_ranges(&chain.rules);
    }
}

fn rule_ranges(rules: &[Rule])
    ensures { AllByRecursion RuleFits rules.now }
{
    for rule in rules {
        rule_range(rule);
    }
}

fn rule_range(rule: &Rule)
    ensures { RuleFits rule.now }
{
    match rule {
        Rule::Map(map) => element_ranges(&map.elements),
        Rule::Match(rule) => service_range(rule.service),
    }
}

fn element_ranges(elements: &[Element])
    ensures { AllByRecursion ElementFits elements.now }
{
    for element in elements {
        element_range(*element);
    }
}

fn element_range(element: Element)
    ensures { ElementFits element }
{
    range_of(element.range.first);
    range_of(element.range.last);
}

fn range_of(address: u32)
    ensures { address < 2 ^ 32 }
{}

fn service_range(service: Option<ServiceMatch>)
    ensures { ServiceFits service }
{
    if let Some(service) = service {
        port_range(service.ports);
    }
}

fn port_range(ports: Option<PortMatch>)
    ensures { PortsFit ports }
{
    if let Some(ports) = ports {
        port_of(ports.low);
        port_of(ports.high);
    }
}

fn port_of(port: u16)
    ensures { port < 2 ^ 16 }
{}
