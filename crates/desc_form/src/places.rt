//! The form of a description: the first place with an unknown key, the first with a missing key,
//! and the first with a value of a wrong type. Places are the document, the hosts, each invariant
//! and its assigns, the flows, and the templates. One pass visits them in this order.
ghost use Rattle.std.specs.Prelude.{◌≡◌, ◌||◌, true, not, map};
ghost use Rattle.std.specs.Option.{option_map_or};
ghost use Rattle.toml.specs.Data.{as_table, table};
ghost use Rattle.toml.specs.View.{view, table_view};
ghost use Rattle.desc_form.specs.Keys.{keys_of, declared_version};
ghost use Rattle.table_core.specs.Keys.{all_suit};
ghost use Rattle.desc_form.specs.declared.refusal.Place.TheVariants.{Document};
ghost use Rattle.desc_form.specs.Places.{assigns_of, denies_pairs, has_missing_key, has_unknown_key, has_wrong_type, invariant_spots, listed, spot_in};
ghost use Rattle.desc_form.specs.inner.Walking.{after, after_all, after_invariants, first_places, nothing_found, place_in};
ghost use Rattle.text_core.specs.FirstMatch.{numbered};

use crate::flows::{are_pairs, is_flow};
use crate::keys::keys_of;
use crate::refusal::Place;
use table_core::{all_suit, has_only_keys, integer_at, lacks_key, list_at};
use toml::{Table, Value};

/// One of the lists of a description.
#[derive(Clone, Copy, PartialEq, Eq, Debug)]
enum Row {
    Hosts,
    /// The assigns of an invariant.
    Assigns(u64),
    Flows,
    Templates,
}

impl Row {
    fn place(self, number: u64) -> Place
        ensures { result ≡ place_in self number }
    {
        match self {
            Row::Hosts => Place::Host(number),
            Row::Assigns(invariant) => Place::Assign(invariant, number),
            Row::Flows => Place::FlowAt(number),
            Row::Templates => Place::Template(number),
        }
    }
}

/// Returns the elements at a key; the empty list if the value is no list.
#[tactic(auto, unfolding(crate::specs::Places::listed))]
pub fn listed<'a>(table: &'a Table, key: &str) -> &'a [Value]
    ensures { map view result.now ≡ listed key.now (table_view table.now) }
{
    match list_at(table, key) {
        Some(values) => values,
        None => &[],
    }
}

/// Returns the assigns of an invariant.
#[tactic(auto, unfolding(crate::specs::Places::assigns_of, crate::specs::Places::listed))]
pub fn assigns_of(value: &Value) -> &[Value]
    ensures { map view result.now ≡ assigns_of (view value.now) }
{
    match value.as_table() {
        Some(table) => listed(table, "assign"),
        None => &[],
    }
}

fn has_unknown_key(version: Option<i64>, place: Place, value: &Value) -> bool
    ensures { result ≡ has_unknown_key version place (view value.now) }
{
    match place {
        Place::Document | Place::Host(_) | Place::Invariant(_) | Place::Template(_) => {
            match value.as_table() {
                Some(table) => !has_only_keys(table, keys_of(version, place)),
                None => false,
            }
        }
        Place::Assign(_, _) | Place::FlowAt(_) => false,
    }
}

fn has_missing_key(version: Option<i64>, place: Place, value: &Value) -> bool
    ensures { result ≡ has_missing_key version place (view value.now) }
{
    match value.as_table() {
        Some(table) => lacks_key(table, keys_of(version, place)),
        None => false,
    }
}

/// Whether all elements of `deny` are pairs.
fn denies_pairs(table: &Table) -> bool
    ensures { result ≡ denies_pairs (table_view table.now) }
{
    are_pairs(listed(table, "deny"))
}

/// Whether the value is no table, or a table in which some value has a wrong type or `deny` has an
/// element that is no pair.
fn is_no_template(version: Option<i64>, place: Place, value: &Value) -> bool
    ensures { result ≡ option_map_or (λ ms. not (all_suit (keys_of version place) ms) || not (denies_pairs ms)) (as_table (view value.now)) true }
{
    let Some(table) = value.as_table() else {
        return true;
    };
    !all_suit(table, keys_of(version, place)) || !denies_pairs(table)
}

#[tactic(auto, unfolding(crate::specs::Places::has_wrong_type))]
fn has_wrong_type(version: Option<i64>, place: Place, value: &Value) -> bool
    ensures { result ≡ has_wrong_type version place (view value.now) }
{
    match place {
        Place::FlowAt(_) => !is_flow(version, value),
        Place::Template(_) => is_no_template(version, place, value),
        Place::Document | Place::Host(_) | Place::Invariant(_) | Place::Assign(_, _) => {
            match value.as_table() {
                Some(table) => !all_suit(table, keys_of(version, place)),
                None => true,
            }
        }
    }
}

/// The findings at the places visited so far: the first unknown key, the first missing key, and the
/// first value of a wrong type.
#[derive(Clone, Copy)]
pub(crate) struct Found {
    /// The version of the document.
    version: Option<i64>,
    pub(crate) unknown: Option<Place>,
    pub(crate) missing: Option<Place>,
    pub(crate) wrong: Option<Place>,
}

impl Found {
    /// Returns the findings in the whole document.
    pub(crate) fn of(document: &Table) -> Found
        ensures { result ≡ first_places (table_view document.now) }
    {
        let mut found = Found::at_document(document);
        found.visit(Row::Hosts, listed(document, "host"));
        found.go_through_invariants(listed(document, "invariant"));
        found.visit(Row::Flows, listed(document, "flow"));
        found.visit(Row::Templates, listed(document, "template"));
        found
    }

    /// Returns the findings at the document itself, which is a table and not a value.
    #[tactic(auto, unfolding(crate::specs::Places::has_wrong_type))]
    fn at_document(document: &Table) -> Found
        ensures { result ≡ after (nothing_found (declared_version (table_view document.now)))
            (record { place = Document; value = table (table_view document.now) }) }
    {
        let (version, place) = (integer_at(document, "topos"), Place::Document);
        let keys = keys_of(version, place);
        Found {
            version,
            unknown: (!has_only_keys(document, keys)).then_some(place),
            missing: lacks_key(document, keys).then_some(place),
            wrong: (!all_suit(document, keys)).then_some(place),
        }
    }

    fn look_at(&mut self, place: Place, value: &Value)
        ensures { self.new ≡ after self.old (record { place = place; value = view value.now }) }
    {
        let unknown = has_unknown_key(self.version, place, value);
        let missing = has_missing_key(self.version, place, value);
        let wrong = has_wrong_type(self.version, place, value);
        self.unknown = self.unknown.or(unknown.then_some(place));
        self.missing = self.missing.or(missing.then_some(place));
        self.wrong = self.wrong.or(wrong.then_some(place));
    }

    fn visit(&mut self, row: Row, values: &[Value])
        ensures { self.new ≡ after_all self.old (map (spot_in (place_in row)) (numbered (map view values.now))) }
    {
        for (index, value) in values.iter().enumerate() {
            self.look_at(row.place(index as u64 + 1), value);
        }
    }

    fn go_through_invariant(&mut self, number: u64, value: &Value)
        ensures { self.new ≡ after_all self.old (invariant_spots (record { number = number; what = view value.now })) }
    {
        self.look_at(Place::Invariant(number), value);
        self.visit(Row::Assigns(number), assigns_of(value));
    }

    fn go_through_invariants(&mut self, values: &[Value])
        ensures { self.new ≡ after_invariants self.old 1 (map view values.now) }
    {
        for (index, value) in values.iter().enumerate() {
            self.go_through_invariant(index as u64 + 1, value);
        }
    }
}
