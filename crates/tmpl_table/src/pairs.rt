//! Pairs of kinds: the denied pairs, and the effect of another kind at the offending host of a
//! pair.

ghost use Rattle.std.specs.Prelude.{◌≡◌, find};
ghost use Rattle.std.specs.List.{position_from};
ghost use Rattle.tmpl_table.specs.KindTable.{lists, passes_with, with_kind};

use inv_law::Strategy;

/// The kinds of a sender and a receiver.
pub(crate) type Pair = (u8, u8);

/// Whether the pair is in the list.
pub(crate) fn lists(pairs: &[Pair], pair: Pair) -> bool
    ensures { result ≡ lists pairs.now pair }
{
    pairs
        .iter()
        .any(|other| other.0 == pair.0 && other.1 == pair.1)
}

/// Returns the pair with this kind at the offending host.
fn with_kind(strategy: Strategy, kind: u8, pair: Pair) -> Pair
    ensures { result ≡ with_kind strategy kind pair }
{
    match strategy {
        Strategy::Access => (kind, pair.1),
        Strategy::Information => (pair.0, kind),
    }
}

/// Whether the pair passes after its offending host is given this kind.
fn passes_with(strategy: Strategy, denied: &[Pair], kind: u8, pair: Pair) -> bool
    ensures { result ≡ passes_with strategy denied.now kind pair }
{
    !lists(denied, with_kind(strategy, kind, pair))
}

/// Returns the index, from 0, of the first denied pair that passes after its offending host is
/// given this kind.
pub(crate) fn first_place(strategy: Strategy, denied: &[Pair], kind: u8) -> Option<usize>
    ensures { result ≡ position_from (passes_with strategy denied.now kind) 0 denied.now }
{
    denied
        .iter()
        .position(|pair| passes_with(strategy, denied, kind, *pair))
}

/// Returns the first denied pair that passes after its offending host is given this kind.
pub(crate) fn first_pair(strategy: Strategy, denied: &[Pair], kind: u8) -> Option<Pair>
    ensures { result ≡ find (passes_with strategy denied.now kind) denied.now }
{
    for pair in denied {
        if passes_with(strategy, denied, kind, *pair) {
            return Some(*pair);
        }
    }
    None
}
