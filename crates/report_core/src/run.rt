//! The runs of a rule set and of a flow table over a list of events, from an empty connection
//! table.

ghost use Rattle.std.specs.Prelude.{◌∷◌, List, Option, Bool, IfOk};
ghost use Rattle.ipt_rules.specs.Semantics.{PassesChains};
ghost use Rattle.ofp_rules.specs.Semantics.{PassesEntries};
ghost use Rattle.pkt_core.specs.declared.event.Event.{Event as EventOf};
ghost use Rattle.pkt_core.specs.inner.ConnectionTable.{kept_in};
ghost use Rattle.pkt_core.specs.Tracking.{Runs, no_connections};
ghost use Rattle.report_core.specs.Trace.{IsTrace};

use crate::line::push_answer;
use ipt_rules::{IndexedRuleset, Ruleset};
use ofp_rules::{Frame, Table};
use pkt_core::{Event, Track};
use std::alloc::{AllocError, Global};

/// Returns the result of the rules for each event, one line per event. The state of a packet's
/// connection depends on the events before it.
pub fn trace_rules(alloc: Global, rules: &Ruleset, events: &[Event]) -> Result<Vec<u8>, AllocError>
    ensures { IfOk result (λ text. IsTrace (PassesChains rules.now) events.now text.items) }
{
    let indexed = IndexedRuleset::of(alloc, rules, events.len())?;
    trace_indexed(alloc, &indexed, events)
}

fn trace_indexed(
    alloc: Global,
    indexed: &IndexedRuleset<'_>,
    events: &[Event],
) -> Result<Vec<u8>, AllocError>
    ensures { IfOk result (λ text. IsTrace (PassesChains indexed.now) events.now text.items) }
{
    let mut track = Track::new(alloc);
    let mut text = Vec::new(alloc);
    for (place, event) in events.iter().enumerate() {
        let answer = answer(indexed, &mut track, *event)?;
        push_answer(&mut text, place + 1, answer)?;
    }
    Ok(text)
}

/// Returns the result of the entries for each event, one line per event. A packet is an IPv4 frame,
/// and its result is independent of the events before it.
pub fn trace_table(alloc: Global, table: &Table, events: &[Event]) -> Result<Vec<u8>, AllocError>
    ensures { IfOk result (λ text. IsTrace (PassesEntries table.now) events.now text.items) }
{
    let mut text = Vec::new(alloc);
    for (place, event) in events.iter().enumerate() {
        push_answer(&mut text, place + 1, table_answer(table, *event))?;
    }
    Ok(text)
}

/// Returns the result of one event, and tracks it: a run over the remaining events continues this
/// run.
fn answer(
    indexed: &IndexedRuleset<'_>,
    track: &mut Track,
    event: Event,
) -> Result<Option<bool>, AllocError>
    ensures { IfOk result (λ answer. (events : List EventOf) (results : List (Option Bool))
        → Runs (PassesChains indexed.now) (kept_in track.new) events results
        → Runs (PassesChains indexed.now) (kept_in track.old) (event ∷ events) (answer ∷ results)) }
{
    match event {
        Event::Seen(packet) => {
            let connection = track.connection_of(&packet);
            let verdict = indexed.verdict(&packet, connection.state());
            let passes = verdict.is_forward();
            track.step_in(connection, &packet, passes)?;
            Ok(Some(passes))
        }
        Event::Forget(packet) => {
            track.forget(&packet);
            Ok(None)
        }
    }
}

/// Returns the result of one event. A table is stateless, so each event is a run from the empty
/// connection table.
fn table_answer(table: &Table, event: Event) -> Option<bool>
    ensures { (events : List EventOf) (results : List (Option Bool))
        → Runs (PassesEntries table.now) no_connections events results
        → Runs (PassesEntries table.now) no_connections (event ∷ events) (result ∷ results) }
{
    match event {
        Event::Seen(packet) => Some(table.verdict(&Frame::Ipv4(packet)).is_forward()),
        Event::Forget(_) => None,
    }
}
