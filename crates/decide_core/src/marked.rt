//! The places of marked rules, and the unmarked entries.

ghost use Rattle.std.specs.Prelude.{◌≡◌, ◌+◌, ◌<◌, length, IfOk};
ghost use Rattle.ipt_rules.specs.Marks.{marks_of};
ghost use Rattle.decide_core.specs.inner.Classifying.{HasMarks, chain_count, rules_by};
ghost use Rattle.decide_core.specs.inner.Marked.{AreMarked, IsMarked, unmarked_below};
ghost use Rattle.pass_core.specs.inner.Places.{AreBefore};

use crate::classifier::Classifier;
use crate::rule_marks::RuleMarks;
use ipt_rules::Place;
use std::alloc::{AllocError, Global};

/// Returns the places of the marked rules, in ascending order.
pub(crate) fn marked_places(
    alloc: Global,
    classifier: &Classifier<'_>,
    marks: &RuleMarks,
) -> Result<Vec<Place>, AllocError>
    requires { HasMarks (rules_by classifier.now) marks.now }
    ensures { IfOk result (λ places. AreMarked marks.now places.items) }
{
    let mut places = Vec::new(alloc);
    for chain in 0..classifier.chains() {
        push_marked(&mut places, marks, chain, classifier.count_in(chain))?;
    }
    Ok(places)
}

/// Appends the places of the marked rules of a chain with this number of rules.
fn push_marked(
    places: &mut Vec<Place>,
    marks: &RuleMarks,
    chain: u16,
    count: u32,
) -> Result<(), AllocError>
    requires count { length (marks_of marks.now chain) ≡ count }
    requires before { AreBefore (IsMarked marks.now) (record { chain = chain; rule = 0 }) places.old.items }
    ensures { IfOk result (λ _. AreBefore (IsMarked marks.now) (record { chain = chain + 1; rule = 0 }) places.new.items) }
{
    for rule in 0..count {
        let place = Place { chain, rule };
        if marks.is_marked(place) {
            places.push(place)?;
        }
    }
    Ok(())
}

/// Returns the numbers of the unmarked entries among the first `count` entries of a flow table.
#[tactic(auto, unfolding(rules_space::specs::Numbers::numbers_where))]
pub(crate) fn unmarked_entries(
    alloc: Global,
    marks: &RuleMarks,
    count: u32,
) -> Result<Vec<u32>, AllocError>
    ensures { IfOk result (λ entries. entries.items ≡ unmarked_below marks.now count) }
{
    (0..count)
        .filter(|entry| {
            !marks.is_marked(Place {
                chain: 0,
                rule: *entry,
            })
        })
        .collect(alloc)
}
