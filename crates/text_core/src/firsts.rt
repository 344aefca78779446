//! The first element of a list that conflicts with an earlier one, for example by having its name.
ghost use Rattle.std.specs.Prelude.{◌≡◌, Bool, IfSome, IsTrue, None, find, option_map};
ghost use Rattle.text_core.specs.FirstMatch.{first_conflict, numbered};
ghost use Rattle.text_core.specs.inner.Pairs.{no_pair, IsFirstConflict};
ghost use Rattle.text_core.specs.inner.FirstsView.{numbered_seen, pair_seen, Tests};

/// An element of a list and its number, from 1.
#[derive(Drop)]
pub struct Numbered<'a, T> {
    pub number: u64,
    pub what: &'a T,
}

/// An element, and the earliest one with which it conflicts.
#[derive(Drop)]
pub struct Conflict<'a, T> {
    pub later: Numbered<'a, T>,
    pub earlier: Numbered<'a, T>,
}

/// Returns the first element that conflicts with an earlier one, and the earliest such one. `conflicts`
/// is called with a later and an earlier element.
pub fn first_conflict<T, F: Fn(&T, &T) -> bool>(
    items: &[T],
    conflicts: F,
) -> Option<Conflict<'_, T>>
    requires { F.IsAlwaysCallable conflicts }
    ensures exact { (test : T → T → Bool) → Tests F.Fn conflicts test → option_map pair_seen result ≡ first_conflict (λ x y. test x.what y.what) (numbered items.now) }
    ensures first { (test : T → T → Bool) → Tests F.Fn conflicts test → IfSome result (λ pair. IsFirstConflict (λ x y. test x.what y.what) (numbered items.now) (pair_seen pair)) }
    ensures none { (test : T → T → Bool) → Tests F.Fn conflicts test → result ≡ None → IsTrue (no_pair test items.now) }
{
    find_conflict(items, conflicts)
}

fn find_conflict<T, F: Fn(&T, &T) -> bool>(items: &[T], conflicts: F) -> Option<Conflict<'_, T>>
    requires { F.IsAlwaysCallable conflicts }
    ensures { (test : T → T → Bool) → Tests F.Fn conflicts test → option_map pair_seen result ≡ first_conflict (λ x y. test x.what y.what) (numbered items.now) }
{
    for (index, item) in items.iter().enumerate() {
        if let Some(earlier) = first_conflicting(&items[..index], item, &conflicts) {
            let later = Numbered {
                number: index as u64 + 1,
                what: item,
            };
            return Some(Conflict { later, earlier });
        }
    }
    None
}

/// Returns the first of the elements before an element with which it conflicts.
fn first_conflicting<'a, T, F: Fn(&T, &T) -> bool>(
    before: &'a [T],
    item: &T,
    conflicts: &F,
) -> Option<Numbered<'a, T>>
    requires { F.IsAlwaysCallable conflicts.now }
    ensures { (test : T → T → Bool) → Tests F.Fn conflicts.now test → option_map numbered_seen result ≡ find (λ y. test item.now y.what) (numbered before.now) }
{
    for (index, earlier) in before.iter().enumerate() {
        if conflicts(item, earlier) {
            return Some(Numbered {
                number: index as u64 + 1,
                what: earlier,
            });
        }
    }
    None
}
