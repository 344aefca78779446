//! Marks on the rules of chains, or on the entries of a flow table.

ghost use Rattle.std.specs.Prelude.{◌≡◌, ◌<◌, length, false, IfOk};
ghost use Rattle.ipt_rules.specs.declared.marks.Place.{Place};
ghost use Rattle.ipt_rules.specs.Marks.{is_marked, marks_of};
ghost use Rattle.ipt_rules.specs.inner.Marking.{with_mark};
ghost use Rattle.decide_core.specs.inner.Classifying.{HasMarks, chain_count, rules_by, unset_marks};

use crate::classifier::Classifier;
use ipt_rules::Place;
use std::alloc::{AllocError, Global};
use std::marker::Model;

/// A mark for each rule.
#[derive(Drop)]
pub(crate) struct RuleMarks {
    rows: Vec<Vec<bool>>,
}

impl Model for RuleMarks {
    ghost use Rattle.std.specs.Prelude.{Bool, List, map};

    ghost Value = { List (List Bool) };

    ghost view = { λ m. map (λ row. row.items) m.rows.items };
}

impl RuleMarks {
    /// Returns marks of which none is set.
    pub(crate) fn none(alloc: Global, classifier: &Classifier<'_>) -> Result<RuleMarks, AllocError>
        ensures marks { IfOk result (λ marks. HasMarks (rules_by classifier.now) marks) }
        ensures none { IfOk result (λ marks. (place : Place) → is_marked marks place ≡ false) }
    {
        let marks = RuleMarks::unset(alloc, classifier)?;
        Ok(marks)
    }

    fn unset(alloc: Global, classifier: &Classifier<'_>) -> Result<RuleMarks, AllocError>
        ensures { IfOk result (λ marks. marks ≡ unset_marks (rules_by classifier.now) (chain_count (rules_by classifier.now))) }
    {
        let mut rows = Vec::new(alloc);
        for chain in 0..classifier.chains() {
            let count = classifier.count_in(chain);
            rows.push(vec![in alloc; false; count as usize]?)?;
        }
        Ok(RuleMarks { rows })
    }

    /// Whether the rule at a place is marked. False if the place has no rule.
    pub(crate) fn is_marked(&self, place: Place) -> bool
        ensures { result ≡ is_marked self.now place }
    {
        match self.rows.get(place.chain as usize) {
            Some(row) => row.get(place.rule as usize).copied().unwrap_or(false),
            None => false,
        }
    }

    /// Marks the rule at a place.
    pub(crate) fn mark(&mut self, place: Place)
        requires { place.rule < length (marks_of self.old place.chain) }
        ensures { self.new ≡ with_mark self.old place }
    {
        let row = &mut self.rows[place.chain as usize];
        row[place.rule as usize] = true;
    }
}
