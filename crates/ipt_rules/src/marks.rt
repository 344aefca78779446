//! Marks on the rules of a rule set.

ghost use Rattle.std.specs.Prelude.{◌≡◌, ◌<◌, length, false, IfOk};
ghost use Rattle.ipt_rules.specs.Marks.{AreMarksOf, is_marked, marks_of};
ghost use Rattle.ipt_rules.specs.inner.Marking.{no_marks, with_mark, with_mark_if};
ghost use Rattle.ipt_rules.specs.declared.marks.Place.{Place};

use crate::chain::Chain;
use crate::ruleset::Ruleset;
use std::alloc::{AllocError, Global};
use std::marker::Model;

/// The place of a rule: the number of its chain and its index in the chain, both from 0.
#[derive(Clone, Copy, Debug, PartialEq, Eq)]
pub struct Place {
    pub chain: u16,
    pub rule: u32,
}

/// A mark for each rule of a rule set.
#[derive(Drop)]
pub struct Marks {
    rows: Vec<Vec<bool>>,
}

impl Model for Marks {
    ghost use Rattle.std.specs.Prelude.{Bool, List, map};

    ghost Value = { List (List Bool) };

    ghost view = { λ m. map (λ row. row.items) m.rows.items };
}

impl Marks {
    /// Returns marks for the rules of this rule set, none of which is set. They take a byte for each rule.
    pub fn new(alloc: Global, rules: &Ruleset) -> Result<Marks, AllocError>
        ensures marks { IfOk result (λ marks. AreMarksOf marks rules.now) }
        ensures none { IfOk result (λ marks. (place : Place) → is_marked marks place ≡ false) }
    {
        Marks::unset(alloc, &rules.chains)
    }

    fn unset(alloc: Global, chains: &[Chain]) -> Result<Marks, AllocError>
        ensures { IfOk result (λ marks. marks ≡ no_marks chains.now) }
    {
        let mut rows = Vec::new(alloc);
        for chain in chains {
            let rules = chain.rules();
            rows.push(vec![in alloc; false; rules.len()]?)?;
        }
        Ok(Marks { rows })
    }

    /// Whether the rule at a place is marked. It is not if there is no rule.
    pub fn is_marked(&self, place: Place) -> bool
        ensures { result ≡ is_marked self.now place }
    {
        match self.rows.get(place.chain as usize) {
            Some(row) => row.get(place.rule as usize).copied().unwrap_or(false),
            None => false,
        }
    }

    /// Marks a rule if it matches.
    pub(crate) fn mark_if(&mut self, fits: bool, place: Place)
        requires { place.rule < length (marks_of self.old place.chain) }
        ensures { self.new ≡ with_mark_if fits self.old place }
    {
        if fits {
            self.mark(place);
        }
    }

    fn mark(&mut self, place: Place)
        requires { place.rule < length (marks_of self.old place.chain) }
        ensures { self.new ≡ with_mark self.old place }
    {
        let row = &mut self.rows[place.chain as usize];
        row[place.rule as usize] = true;
    }
}
