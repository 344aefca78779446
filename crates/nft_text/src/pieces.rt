//! The pieces of the text: a line is one piece, but each element of a verdict map is a piece of its
//! own, so a piece fits a buffer of fixed size. Nothing is allocated.

ghost use Rattle.std.specs.Prelude.{◌≡◌, ◌≤◌, ◌++◌, ◌∷◌, [], List, IfNone, IfSome, take};
ghost use Rattle.std.specs.Option.{option_map_or};
ghost use Rattle.nft_rules.specs.Loadable.{AreNamed};
ghost use Rattle.nft_rules.specs.declared.table.Chain.{Chain};
ghost use Rattle.nft_text.specs.Text.{rule_pieces, rules_pieces, table_pieces};
ghost use Rattle.nft_text.specs.inner.Places.{AreShort, HasShortNames, body_pieces, remaining, rest_pieces};
ghost use Rattle.nft_text.specs.declared.pieces.Place.TheVariants.{Last, Within};

use crate::element::write_element;
use crate::line::{write, write_head, write_map_head, write_match};
use nft_rules::{Chain, Element, Rule, Table};
use std::marker::Model;

/// The greatest length of a piece, in bytes.
pub const PIECE_LIMIT: usize = 256;

/// What remains of a chain: the elements that remain of a map, and the rules that follow it.
#[derive(Clone, Copy)]
pub(crate) struct Body<'a> {
    elements: &'a [Element],
    rules: &'a [Rule],
}

/// A place in the text.
#[derive(Clone, Copy)]
pub(crate) enum Place<'a> {
    /// Before the first line.
    Start,
    /// Between two chains, with the chains that follow.
    Chains(&'a [Chain]),
    /// Within a chain, with the chains that follow.
    Within(&'a [Chain], Body<'a>),
    /// Within the base chain, the last one.
    Last(Body<'a>),
    /// After the last line.
    End,
}

/// The pieces of the text of a table that remain to be written.
#[derive(Drop)]
pub struct TextPieces<'a> {
    table: &'a Table,
    place: Place<'a>,
}

impl<'a> Model for TextPieces<'a> {
    ghost use Rattle.std.specs.Prelude.{ℕ, List};
    ghost use Rattle.nft_text.specs.inner.Places.{AreShort, HasShortNames, remaining};

    ghost Value = { List (List ℕ) };

    ghost view = { λ t. remaining t.table.now t.place };

    ghost invariant = { λ t. AreShort t.table.now.chains.items × HasShortNames t.place };
}

impl<'a> TextPieces<'a> {
    /// Returns all pieces of the text of a table, whose chains have names as nft demands.
    #[tactic(auto, using(crate::proofs::PlaceLaws::short_named))]
    pub fn new(table: &'a Table) -> TextPieces<'a>
        requires { AreNamed table.now.chains.items }
        ensures { result ≡ table_pieces table.now }
    {
        TextPieces {
            table,
            place: Place::Start,
        }
    }

    /// Writes the next piece to the start of the buffer, and returns its length. The rest of the
    /// buffer is unspecified.
    pub fn next_piece(&mut self, buffer: &mut [u8; 256]) -> Option<usize>
        ensures next { self.old ≡ option_map_or (λ n. take n buffer.new ∷ self.new) result [] }
        ensures end { IfNone result (self.new ≡ []) }
        ensures within { IfSome result (λ n. n ≤ 256) }
    {
        let (length, place) = write_piece(self.table, self.place, buffer)?;
        self.place = place;
        Some(length)
    }
}

/// Writes the piece at a place, and returns its length and the next place.
#[tactic(auto, unfolding(crate::specs::Text::table_head))]
fn write_piece<'a>(
    table: &'a Table,
    place: Place<'a>,
    buffer: &mut [u8; 256],
) -> Option<(usize, Place<'a>)>
    requires short { AreShort table.now.chains.items }
    requires names { HasShortNames place }
    ensures some { IfSome result (λ next. remaining table.now place.entry ≡ take next.0 buffer.new ∷ remaining table.now next.1) }
    ensures none { IfNone result (remaining table.now place.entry ≡ []) }
    ensures names { IfSome result (λ next. HasShortNames next.1) }
    ensures within { IfSome result (λ next. next.0 ≤ 256) }
{
    match place {
        Place::Start => {
            let length = write(b"table ip topos {\n", buffer);
            Some((length, Place::Chains(&table.chains)))
        }
        Place::Chains(chains) => Some(write_next_head(table, chains, buffer)),
        Place::Within(chains, body) => Some(write_within(table, chains, body, buffer)),
        Place::Last(body) => Some(write_last(table, body, buffer)),
        Place::End => None,
    }
}

/// Writes the first line of the next chain: of the base chain, if no other follows.
#[tactic(auto, using(crate::proofs::PlaceLaws::rest_chain, crate::proofs::PlaceLaws::short_rest), unfolding(crate::specs::Text::forward_head))]
fn write_next_head<'a>(
    table: &'a Table,
    chains: &'a [Chain],
    buffer: &mut [u8; 256],
) -> (usize, Place<'a>)
    requires { AreShort chains.now }
    ensures text { rest_pieces table.now chains.now ≡ take result.0 buffer.new ∷ remaining table.now result.1 }
    ensures names { HasShortNames result.1 }
    ensures within { result.0 ≤ 256 }
{
    match chains {
        [] => {
            let length = write(
                b"\tchain forward {\n\t\ttype filter hook forward priority filter; policy drop;\n",
                buffer,
            );
            (length, Place::Last(body_of(&table.forward)))
        }
        [chain, behind @ ..] => {
            let length = write_head(&chain.name, buffer);
            (length, Place::Within(behind, body_of(&chain.rules)))
        }
    }
}

fn body_of(rules: &[Rule]) -> Body<'_>
    ensures { (chains : List Chain) → body_pieces chains result ≡ rules_pieces chains rules.now }
{
    Body {
        elements: &[],
        rules,
    }
}

/// Writes the next piece of a chain, or its end.
#[tactic(auto, unfolding(crate::specs::Text::chain_end))]
fn write_within<'a>(
    table: &'a Table,
    chains: &'a [Chain],
    body: Body<'a>,
    buffer: &mut [u8; 256],
) -> (usize, Place<'a>)
    requires short { AreShort table.now.chains.items }
    requires names { AreShort chains.now }
    ensures text { remaining table.now (Within chains.entry body.entry) ≡ take result.0 buffer.new ∷ remaining table.now result.1 }
    ensures names { HasShortNames result.1 }
    ensures within { result.0 ≤ 256 }
{
    match write_body(&table.chains, body, buffer) {
        Some((length, body)) => (length, Place::Within(chains, body)),
        None => {
            let length = write(b"\t}\n\n", buffer);
            (length, Place::Chains(chains))
        }
    }
}

/// Writes the next piece of the base chain, or the end of the table.
#[tactic(auto, unfolding(crate::specs::Text::table_end))]
fn write_last<'a>(table: &'a Table, body: Body<'a>, buffer: &mut [u8; 256]) -> (usize, Place<'a>)
    requires { AreShort table.now.chains.items }
    ensures text { remaining table.now (Last body.entry) ≡ take result.0 buffer.new ∷ remaining table.now result.1 }
    ensures names { HasShortNames result.1 }
    ensures within { result.0 ≤ 256 }
{
    match write_body(&table.chains, body, buffer) {
        Some((length, body)) => (length, Place::Last(body)),
        None => {
            let length = write(b"\t}\n}\n", buffer);
            (length, Place::End)
        }
    }
}

/// Writes the next piece of the rest of a chain.
fn write_body<'a>(
    chains: &[Chain],
    body: Body<'a>,
    buffer: &mut [u8; 256],
) -> Option<(usize, Body<'a>)>
    requires { AreShort chains.now }
    ensures some { IfSome result (λ next. body_pieces chains.now body.entry ≡ take next.0 buffer.new ∷ body_pieces chains.now next.1) }
    ensures none { IfNone result (body_pieces chains.now body.entry ≡ []) }
    ensures within { IfSome result (λ next. next.0 ≤ 256) }
{
    if let [element, behind @ ..] = body.elements {
        let length = write_element(chains, *element, behind, buffer);
        return Some((
            length,
            Body {
                elements: behind,
                rules: body.rules,
            },
        ));
    }
    match body.rules {
        [] => None,
        [rule, behind @ ..] => Some(write_rule(chains, rule, behind, buffer)),
    }
}

/// Writes the first piece of a rule.
fn write_rule<'a>(
    chains: &[Chain],
    rule: &'a Rule,
    behind: &'a [Rule],
    buffer: &mut [u8; 256],
) -> (usize, Body<'a>)
    requires { AreShort chains.now }
    ensures text { rule_pieces chains.now rule.now ++ rules_pieces chains.now behind.now ≡ take result.0 buffer.new ∷ body_pieces chains.now result.1 }
    ensures within { result.0 ≤ 256 }
{
    match rule {
        Rule::Map(map) => {
            let length = write_map_head(map.end, buffer);
            (
                length,
                Body {
                    elements: &map.elements,
                    rules: behind,
                },
            )
        }
        Rule::Match(matched) => {
            let length = write_match(chains, *matched, buffer);
            (length, body_of(behind))
        }
    }
}
