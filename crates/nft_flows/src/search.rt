//! Search in lists of rules in ascending order.

ghost use Rattle.std.specs.Prelude.{◌≡◌, true, false};
ghost use Rattle.std.specs.List.Sorted.{IsPartitionPoint};
ghost use Rattle.pass_core.specs.Dead.{AreAscending, is_listed, same_place};
ghost use Rattle.nft_flows.specs.inner.Search.{comes_before};

use ipt_rules::Place;

/// Whether the rule is among rules in ascending order.
pub(crate) fn is_among(rules: &[Place], rule: Place) -> bool
    requires { AreAscending rules.now }
    ensures { result ≡ is_listed rules.now rule }
{
    let index = index_of(rules, rule);
    index < rules.len() && is_same(rules[index], rule)
}

/// Returns the number of rules before this one.
fn index_of(rules: &[Place], rule: Place) -> usize
    requires { AreAscending rules.now }
    ensures { IsPartitionPoint (λ other. comes_before other rule ≡ true) (λ other. comes_before other rule ≡ false) rules.now result }
{
    rules.partition_point(|other| comes_before(*other, rule))
}

/// Whether a rule precedes another one.
fn comes_before(one: Place, other: Place) -> bool
    ensures { result ≡ comes_before one other }
{
    one.chain < other.chain || one.chain == other.chain && one.rule < other.rule
}

/// Whether the places are the same.
fn is_same(one: Place, other: Place) -> bool
    ensures { result ≡ same_place one other }
{
    one.chain == other.chain && one.rule == other.rule
}
