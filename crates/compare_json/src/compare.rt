//! The answer of `compare` as JSON.

ghost use Rattle.std.specs.Prelude.{◌≡◌, ◌<◌, ◌++◌, All, IfOk, OnOk};
ghost use Rattle.compare_json.specs.CompareJson.{compare_json, difference_json, events_json, later_packet_json, list_text, packet_json, rules_text};
ghost use Rattle.json_core.specs.Json.{is_nothing};
ghost use Rattle.compare_json.specs.inner.Fitting.{FitsDifference};

use audit_core::{Difference, Trace, push_packet_text};
use host_net::{Hosts, Packet};
use json_core::{ItemWriter, push, push_array, push_bool, push_owner, push_string};
use std::alloc::{AllocError, Global};

/// Returns the differences as one object on one line.
pub fn compare_json(
    alloc: Global,
    hosts: &Hosts,
    differences: &[Difference],
) -> Result<Vec<u8>, AllocError>
    requires { All (FitsDifference hosts.now) differences.now }
    ensures { IfOk result (λ text. text.items ≡ compare_json hosts.now differences.now) }
{
    let mut text = Vec::new(alloc);
    push_comparison(&mut text, hosts, differences)?;
    Ok(text)
}

fn push_comparison(
    text: &mut Vec<u8>,
    hosts: &Hosts,
    differences: &[Difference],
) -> Result<(), AllocError>
    requires { All (FitsDifference hosts.now) differences.now }
    ensures { OnOk result (text.new.items ≡ text.old.items ++ compare_json hosts.now differences.now) }
{
    push(text, b"{\"version\":1,\"equal\":")?;
    push_bool(text, is_nothing(differences))?;
    push(text, b",\"differences\":")?;
    push_array(text, &DifferenceWriter { hosts }, differences)?;
    push(text, b"}\n")
}

fn is_nothing(differences: &[Difference]) -> bool
    ensures { result ≡ is_nothing differences.now }
{
    match differences {
        [] => true,
        [_, ..] => false,
    }
}

// The writer of differences.
#[derive(Drop)]
struct DifferenceWriter<'a> {
    hosts: &'a Hosts,
}

impl<'a> ItemWriter<Difference> for DifferenceWriter<'a> {
    ghost use Rattle.compare_json.specs.CompareJson.{difference_json};
    ghost use Rattle.compare_json.specs.inner.Fitting.{FitsDifference};

    ghost fits = { λ w difference. FitsDifference w.hosts.now difference };

    ghost item_json = { λ w difference. difference_json w.hosts.now difference };

    fn push(&self, text: &mut Vec<u8>, item: &Difference) -> Result<(), AllocError> {
        push_difference(text, self.hosts, *item)
    }
}

fn push_difference(
    text: &mut Vec<u8>,
    hosts: &Hosts,
    difference: Difference,
) -> Result<(), AllocError>
    requires { FitsDifference hosts.now difference }
    ensures { OnOk result (text.new.items ≡ text.old.items ++ difference_json hosts.now difference) }
{
    let trace = difference.trace;
    push(text, b"{\"from\":")?;
    push_owner(text, hosts, difference.from)?;
    push(text, b",\"to\":")?;
    push_owner(text, hosts, difference.to)?;
    push(text, b",\"list\":")?;
    push_string(text, list_text(trace.second, trace.third))?;
    push(text, b",\"rules\":")?;
    push_string(text, rules_text(trace.forwards))?;
    push(text, b",\"events\":")?;
    push_events(text, trace)?;
    push(text, b"}")
}

fn list_text(second: Option<Packet>, third: Option<Packet>) -> &'static [u8]
    ensures { result.now ≡ list_text second third }
{
    match (second, third) {
        (None, _) => b"new",
        (Some(_), None) => b"answer",
        (Some(_), Some(_)) => b"later",
    }
}

fn rules_text(forwards: bool) -> &'static [u8]
    ensures { result.now ≡ rules_text forwards }
{
    if forwards { b"forward" } else { b"drop" }
}

fn push_events(text: &mut Vec<u8>, trace: Trace) -> Result<(), AllocError>
    ensures { OnOk result (text.new.items ≡ text.old.items ++ events_json trace) }
{
    push(text, b"[")?;
    push_packet(text, trace.first)?;
    push_later_packet(text, trace.second)?;
    push_later_packet(text, trace.third)?;
    push(text, b"]")
}

fn push_later_packet(text: &mut Vec<u8>, packet: Option<Packet>) -> Result<(), AllocError>
    ensures { OnOk result (text.new.items ≡ text.old.items ++ later_packet_json packet) }
{
    match packet {
        None => Ok(()),
        Some(packet) => {
            push(text, b",")?;
            push_packet(text, packet)
        }
    }
}

#[tactic(auto, unfolding(json_core::specs::Json::string_json))]
fn push_packet(text: &mut Vec<u8>, packet: Packet) -> Result<(), AllocError>
    ensures { OnOk result (text.new.items ≡ text.old.items ++ packet_json packet) }
{
    push(text, b"\"")?;
    push_packet_text(text, packet)?;
    push(text, b"\"")
}
