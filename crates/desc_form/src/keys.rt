//! The keys of each table of a description, place by place.
ghost use Rattle.std.specs.Prelude.{◌≡◌, map};
ghost use Rattle.desc_form.specs.Keys.{keys_of};
ghost use Rattle.desc_form.specs.declared.refusal.Place.TheVariants.{Document};
ghost use Rattle.table_core.specs.inner.KeyView.{key_view};

use crate::refusal::Place;
use table_core::{Key, Kind};

const ANSWERS: [&str; 2] = ["all", "none"];

// The keys of version 1.
static DOCUMENT: [Key; 5] = [
    Key::Needed("topos", Kind::Integer),
    Key::Optional("answers", Kind::OneOf(&ANSWERS)),
    Key::Needed("host", Kind::List),
    Key::Optional("invariant", Kind::List),
    Key::Optional("flow", Kind::List),
];

// Version 2 also has templates.
static SECOND_DOCUMENT: [Key; 6] = [
    Key::Needed("topos", Kind::Integer),
    Key::Optional("answers", Kind::OneOf(&ANSWERS)),
    Key::Needed("host", Kind::List),
    Key::Optional("invariant", Kind::List),
    Key::Optional("flow", Kind::List),
    Key::Optional("template", Kind::List),
];

static HOST: [Key; 3] = [
    Key::Needed("name", Kind::Text),
    Key::Optional("at", Kind::Texts),
    Key::Optional("rest", Kind::Boolean),
];

static INVARIANT: [Key; 2] = [
    Key::Needed("template", Kind::Text),
    Key::Optional("assign", Kind::List),
];

static ASSIGN: [Key; 1] = [Key::Needed("host", Kind::Text)];

static TEMPLATE: [Key; 5] = [
    Key::Needed("name", Kind::Text),
    Key::Needed("strategy", Kind::Text),
    Key::Needed("kinds", Kind::Texts),
    Key::Needed("default", Kind::Text),
    Key::Needed("deny", Kind::List),
];

/// Returns the keys of a document of the given version.
fn document_keys(version: Option<i64>) -> &'static [Key]
    ensures { map key_view result.now ≡ keys_of version Document }
{
    match version {
        Some(2) => &SECOND_DOCUMENT,
        _ => &DOCUMENT,
    }
}

/// Returns the keys of the table at a place, in a document of the given version. An assign has
/// further keys that depend on its template.
pub(crate) fn keys_of(version: Option<i64>, place: Place) -> &'static [Key]
    ensures { map key_view result.now ≡ keys_of version place }
{
    match place {
        Place::Document => document_keys(version),
        Place::Host(_) => &HOST,
        Place::Invariant(_) => &INVARIANT,
        Place::Assign(_, _) => &ASSIGN,
        Place::FlowAt(_) => &[],
        Place::Template(_) => &TEMPLATE,
    }
}
