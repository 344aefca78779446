//! The words of the command line: an event, and the state that the caller has read.

ghost use Rattle.std.specs.Prelude.{◌≡◌, map, option_map, string_bytes};
ghost use Rattle.load_core.specs.Words.{Request, usage_text};
ghost use Rattle.load_core.specs.inner.Words.{chains_named, event_named, forward_named, request_of};

use crate::event::Event;
use crate::state::{Forward, Generation, State};

/// Returns the forms of the command line.
#[tactic(auto, unfolding(crate::specs::Words::usage_text))]
pub fn usage() -> &'static [u8]
    ensures { result.now ≡ usage_text }
{
    b"usage: topos-step load|now|confirm|back|remove none|a-kept|a-pending|b-kept|b-pending none|a|b|ab\n"
}

/// Returns the event and the state of the words, or `None` if the words are no request, or no table has the state.
#[tactic(auto, unfolding(crate::specs::inner::Words::request_of))]
pub fn parse_request(words: &[String]) -> Option<(Event, State)>
    ensures { option_map (λ request. record { event = request.0; state = request.1 }) result ≡ request_of (map string_bytes words.now) }
{
    let [event, active, chains] = words else {
        return None;
    };
    let event = event_named(event.as_str())?;
    let forward = forward_named(active.as_str())?;
    let (has_a, has_b) = chains_named(chains.as_str())?;
    let state = State {
        forward,
        has_a,
        has_b,
    };
    if state.is_sound() {
        Some((event, state))
    } else {
        None
    }
}

// Returns the event of that name.
fn event_named(word: &str) -> Option<Event>
    ensures { result ≡ event_named word.now }
{
    match word {
        "load" => Some(Event::Load),
        "now" => Some(Event::Now),
        "confirm" => Some(Event::Confirm),
        "back" => Some(Event::Back),
        "remove" => Some(Event::Remove),
        _ => None,
    }
}

// Returns where `forward` continues, by its name.
fn forward_named(word: &str) -> Option<Forward>
    ensures { result ≡ forward_named word.now }
{
    match word {
        "none" => Some(Forward::Absent),
        "a-kept" => Some(Forward::Kept(Generation::A)),
        "a-pending" => Some(Forward::Pending(Generation::A)),
        "b-kept" => Some(Forward::Kept(Generation::B)),
        "b-pending" => Some(Forward::Pending(Generation::B)),
        _ => None,
    }
}

// Returns which generations have chains, by their letters.
fn chains_named(word: &str) -> Option<(bool, bool)>
    ensures { result ≡ chains_named word.now }
{
    match word {
        "none" => Some((false, false)),
        "a" => Some((true, false)),
        "b" => Some((false, true)),
        "ab" => Some((true, true)),
        _ => None,
    }
}
