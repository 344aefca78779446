//! The rules that decide packets, marked box by box.

ghost use Rattle.std.specs.Prelude.{◌≡◌, ◌↔◌, ◌<◌, length, Bool, false, IsTrue, IfOk, IfSome, None, Option, Some};
ghost use Rattle.std.specs.List.{All};
ghost use Rattle.host_net.specs.declared.packet.Packet.{Packet};
ghost use Rattle.header_space.specs.Boxes.{IsBox, IsIn, Narrows};
ghost use Rattle.ipt_rules.specs.declared.marks.Place.{Place};
ghost use Rattle.ipt_rules.specs.Marks.{marks_of};
ghost use Rattle.rules_space.specs.RulesView.{rules_of};
ghost use Rattle.decide_core.specs.Deciders.{IsDecider, IsInOne};
ghost use Rattle.decide_core.specs.inner.Classifying.{HasRule};
ghost use Rattle.decide_core.specs.inner.Deciding.{Counts, HasNoted, IsKnown, NotesMoreIn, is_noted, noted};
ghost use Rattle.decide_core.specs.inner.Marked.{AreMarked, unmarked_below};
ghost use Rattle.decide_core.specs.inner.PairSets.{AddsNotes};

use crate::classifier::Classifier;
use crate::marked::{marked_places, unmarked_entries};
use crate::rule_marks::RuleMarks;
use header_space::{PacketBox, Visitor, visit_all};
use ipt_rules::Place;
use rules_space::RulesRef;
use std::alloc::{AllocError, Global};
use std::marker::Model;

/// Rules, with marks on the rules that decide the packets seen so far.
#[derive(Drop)]
pub(crate) struct Deciding<'a> {
    classifier: Classifier<'a>,
    /// Whether only the deciders of packets that pass are marked.
    passing: bool,
    marks: RuleMarks,
    /// Whether the default decides a packet.
    by_default: bool,
}

impl<'a> Model for Deciding<'a> {
    ghost use Rattle.decide_core.specs.inner.Classifying.{HasMarks, rules_by};
    ghost use Rattle.decide_core.specs.inner.Deciding.{Deciding};

    ghost Value = { Deciding };

    ghost view = { λ d. record { rules = rules_by d.classifier; passing = d.passing; marks = d.marks; by_default = d.by_default } };

    ghost invariant = { λ d. HasMarks (rules_by d.classifier) d.marks };
}

impl<'a> Deciding<'a> {
    /// Returns the rules with no mark.
    pub(crate) fn none(
        alloc: Global,
        text: &RulesRef<'a>,
        passing: bool,
    ) -> Result<Deciding<'a>, AllocError>
        ensures rules { IfOk result (λ d. d.rules ≡ rules_of text.now) }
        ensures passing { IfOk result (λ d. d.passing ≡ passing) }
        ensures none { IfOk result (λ d. (decider : Option Place) → is_noted d decider ≡ false) }
    {
        let classifier = Classifier::new(alloc, text)?;
        let marks = RuleMarks::none(alloc, &classifier)?;
        Ok(Deciding {
            classifier,
            passing,
            marks,
            by_default: false,
        })
    }

    /// Returns the rules with marks on the deciders of the packets of the boxes: only of packets that pass if
    /// `passing`, else of all.
    pub(crate) fn of(
        alloc: Global,
        text: &RulesRef<'a>,
        passing: bool,
        boxes: &[PacketBox],
    ) -> Result<Deciding<'a>, AllocError>
        requires { All IsBox boxes.now }
        ensures rules { IfOk result (λ d. d.rules ≡ rules_of text.now) }
        ensures passing { IfOk result (λ d. d.passing ≡ passing) }
        ensures noted { IfOk result (HasNoted (IsInOne boxes.now)) }
    {
        let mut deciding = Deciding::none(alloc, text, passing)?;
        for within in boxes {
            visit_all(alloc, &mut deciding, *within)?;
        }
        Ok(deciding)
    }

    /// Whether the default decides one of the packets.
    pub(crate) fn by_default(&self) -> bool
        ensures { result ≡ self.now.by_default }
    {
        self.by_default
    }

    /// Returns the places of the marked rules, in ascending order.
    pub(crate) fn places(&self, alloc: Global) -> Result<Vec<Place>, AllocError>
        ensures { IfOk result (λ places. AreMarked self.now.marks places.items) }
    {
        marked_places(alloc, &self.classifier, &self.marks)
    }

    /// Returns the numbers of the unmarked entries among the first `count` entries of a flow table.
    pub(crate) fn unmarked_entries(&self, alloc: Global, count: u32) -> Result<Vec<u32>, AllocError>
        ensures { IfOk result (λ entries. entries.items ≡ unmarked_below self.now.marks count) }
    {
        unmarked_entries(alloc, &self.marks, count)
    }

    /// Whether the deciders of the packets of a box have to be marked. Narrows the box until this is the
    /// result for all of its packets.
    fn counts(&self, within: &mut PacketBox) -> bool
        requires { IsBox within.old }
        ensures part { Narrows within.old within.new }
        ensures counts { (p : Packet) → IsIn within.new p → (IsTrue result ↔ Counts self.now.rules self.now.passing p) }
    {
        if self.passing {
            self.classifier.passes_within(within)
        } else {
            true
        }
    }

    /// Marks the rule that decides the least packet of a box, or the default, and returns its place. Narrows
    /// the box until it decides all of its packets.
    fn decide(&mut self, within: &mut PacketBox) -> Option<Place>
        requires { IsBox within.old }
        ensures part { Narrows within.old within.new }
        ensures noted { self.new ≡ noted self.old result }
        ensures decider { (p : Packet) → IsIn within.new p → IsDecider self.old.rules p result }
        ensures only { (p : Packet) → IsIn within.new p → (other : Option Place) → IsDecider self.old.rules p other → other ≡ result }
        ensures there { IfSome result (λ place. place.rule < length (marks_of self.old.marks place.chain)) }
    {
        let decider = self.classifier.decider_within(within);
        self.note(decider);
        decider
    }

    /// Marks the rule at a place.
    pub(crate) fn note_place(&mut self, place: Place)
        requires { HasRule self.old.rules place }
        ensures { AddsNotes (λ e. e ≡ Some place) self.old self.new }
    {
        // The use of this field makes the invariant known.
        let _classifier = &self.classifier;
        self.note(Some(place));
    }

    /// Marks the default.
    pub(crate) fn note_default(&mut self)
        ensures { AddsNotes (λ e. e ≡ None) self.old self.new }
    {
        self.note(None);
    }

    /// Marks a rule, or the default.
    fn note(&mut self, decider: Option<Place>)
        requires { IfSome decider (λ place. place.rule < length (marks_of self.old.marks place.chain)) }
        ensures { self.new ≡ noted self.old decider }
    {
        match decider {
            Some(place) => self.marks.mark(place),
            None => self.by_default = true,
        }
    }
}

impl<'a> Visitor for Deciding<'a> {
    ghost use Rattle.header_space.specs.Boxes.{IsIn};
    ghost use Rattle.decide_core.specs.inner.Deciding.{IsKnown, NotesMoreIn};
    ghost use Rattle.decide_core.specs.laws.DecidingLaws.{known_still, notes_by_both, notes_by_more, notes_by_none};

    ghost knows = { λ d p. IsKnown d p };

    ghost grows = { λ b x y. NotesMoreIn b x y };

    fn visit(&mut self, within: &mut PacketBox) {
        if !self.counts(within) {
            return;
        }
        let _place = self.decide(within);
    }

    ghost grows_by_none = { λ b x. notes_by_none (IsIn b) x };

    ghost grows_by_both = { λ b x y z one two. notes_by_both (IsIn b) x y z one two };

    ghost grows_by_more = { λ b part x y only more. notes_by_more (IsIn b) (IsIn part) x y only more };

    ghost keeps = { λ b x y p more known. known_still (IsIn b) x y p more known };
}
