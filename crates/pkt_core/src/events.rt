//! Parsing an event file: one event per line, `packet 10.0.0.1 10.0.0.2 tcp 1024 80`, or `forget`
//! with the same five fields.

ghost use Rattle.std.specs.Prelude.{◌≡◌, ℕ, List, IfOk, IfErr, MatchResult};
ghost use Rattle.text_core.specs.Lines.{words};
ghost use Rattle.text_core.specs.ListFormat.{by_lines};
ghost use Rattle.text_core.specs.inner.TextAnswers.{HasCause, IsFault};
ghost use Rattle.text_core.specs.declared.faults.ListWhy.{ListWhy};
ghost use Rattle.pkt_core.specs.declared.event.Event.{Event as Meant};
ghost use Rattle.pkt_core.specs.EventsText.{IsReadingOfEvents, IsRefusedInEvents, events_text};
ghost use Rattle.pkt_core.specs.inner.EventSteps.{event_of, event_by, packet_of, protocol_of};
ghost use Rattle.pkt_core.specs.Filter.{ArePackets};

use crate::event::Event;
use host_net::{Packet, read_address, read_port, read_protocol};
use std::alloc::Global;
use text_core::{EntryReader, LineFault, ListWhy, TextFault, Words, read_list, read_number};

/// The greatest size of an event file, in bytes.
pub const EVENTS_BYTE_LIMIT: usize = 16_777_216;

const EVENT_LIMIT: usize = 1_000_000;

/// The first line that encodes no event, from 1, and the reason. Line 0 means the whole file.
///
/// - `TooLong`: more than 16,777,216 bytes.
/// - `BadLine`: not six words, or a first word other than `packet` and `forget`.
/// - `BadValue`: an invalid address, protocol or port.
/// - `TooMany`: the 1,000,001st event.
pub type EventFault = TextFault<ListWhy>;

/// Parses the events of a file.
pub fn read_events(alloc: Global, bytes: &[u8]) -> Result<Vec<Event>, EventFault>
    ensures found { IfOk result (λ events. IsReadingOfEvents bytes.now events.items) }
    // A file of events is rejected only if allocation fails.
    ensures only { (told : List Meant) → IsReadingOfEvents bytes.now told →
        MatchResult result (λ events. events.items ≡ told) (λ fault. fault ≡ TextFault.Memory) }
    ensures refused { IfErr result (HasCause (by_lines events_text) bytes.now) }
    // A file has at most one first error, and none if it parses to events.
    ensures faulty { (line : ℕ) (why : ListWhy) → IsRefusedInEvents bytes.now line why →
        MatchResult result (λ events. ⊥) (IsFault line why) }
    ensures packets { IfOk result (λ events. ArePackets events.items) }
{
    read_list(alloc, &EventLines, bytes)
}

/// The line format of event files.
#[derive(Drop)]
struct EventLines;

impl EntryReader for EventLines {
    type Entry = Event;

    ghost Told = { Meant };

    ghost list = { events_text };

    ghost told = { λ event. event };

    fn limits(&self) -> (usize, usize) {
        (EVENTS_BYTE_LIMIT, EVENT_LIMIT)
    }

    fn read_entry(&self, _number: u32, line: &[u8]) -> Result<Event, LineFault<ListWhy>> {
        match read_event(line) {
            Ok(event) => Ok(event),
            Err(why) => Err(LineFault::Bad(why)),
        }
    }
}

#[tactic(auto, unfolding(crate::specs::inner::EventSteps::event_of))]
fn read_event(line: &[u8]) -> Result<Event, ListWhy>
    ensures { result ≡ event_of (words line.now) }
{
    let mut words = Words::new(line);
    let verb = words.next_word().ok_or(ListWhy::BadLine)?;
    let src = words.next_word().ok_or(ListWhy::BadLine)?;
    let dst = words.next_word().ok_or(ListWhy::BadLine)?;
    let protocol = words.next_word().ok_or(ListWhy::BadLine)?;
    let sport = words.next_word().ok_or(ListWhy::BadLine)?;
    let dport = words.next_word().ok_or(ListWhy::BadLine)?;
    if words.next_word().is_some() {
        return Err(ListWhy::BadLine);
    }
    event_by(verb, read_packet(src, dst, protocol, sport, dport))
}

#[tactic(auto, unfolding(crate::specs::inner::EventSteps::event_by))]
fn event_by(verb: &[u8], packet: Option<Packet>) -> Result<Event, ListWhy>
    ensures { result ≡ event_by verb.now packet }
{
    if verb == b"packet".as_slice() {
        return match packet {
            Some(packet) => Ok(Event::Seen(packet)),
            None => Err(ListWhy::BadValue),
        };
    }
    if verb == b"forget".as_slice() {
        return match packet {
            Some(packet) => Ok(Event::Forget(packet)),
            None => Err(ListWhy::BadValue),
        };
    }
    Err(ListWhy::BadLine)
}

#[tactic(auto, unfolding(crate::specs::inner::EventSteps::packet_of))]
fn read_packet(
    src: &[u8],
    dst: &[u8],
    protocol: &[u8],
    sport: &[u8],
    dport: &[u8],
) -> Option<Packet>
    ensures { result ≡ packet_of src.now dst.now protocol.now sport.now dport.now }
{
    Some(Packet {
        src: read_address(src)?,
        dst: read_address(dst)?,
        proto: protocol_of(protocol)?,
        sport: read_port(sport)?,
        dport: read_port(dport)?,
    })
}

/// Parses a protocol, by its name or by its number.
fn protocol_of(word: &[u8]) -> Option<u8>
    ensures { result ≡ protocol_of word.now }
{
    match read_protocol(word) {
        Some(protocol) => Some(protocol),
        None => Some(read_number(255, word)? as u8),
    }
}
