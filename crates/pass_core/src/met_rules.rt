//! The rules of a rule set that packets meet, marked box by box.

ghost use Rattle.std.specs.Prelude.{◌≡◌, ◌⊎◌, ◌↔◌, false, IsTrue, IfOk};
ghost use Rattle.host_net.specs.declared.packet.Packet.{Packet};
ghost use Rattle.header_space.specs.Boxes.{IsBox, IsIn, Narrows};
ghost use Rattle.ipt_rules.specs.declared.marks.Place.{Place};
ghost use Rattle.ipt_rules.specs.Marks.{is_marked};
ghost use Rattle.ipt_rules.specs.Meets.{IsMet};

use header_space::{PacketBox, Visitor};
use host_net::CtState;
use ipt_rules::{Marks, Ruleset};
use std::alloc::{AllocError, Global};
use std::marker::Model;

/// A rule set, with marks on the rules that the packets seen so far meet.
#[derive(Drop)]
pub(crate) struct MetRules<'a> {
    rules: &'a Ruleset,
    marks: Marks,
}

impl<'a> Model for MetRules<'a> {
    ghost use Rattle.ipt_rules.specs.Marks.{AreMarksOf};
    ghost use Rattle.pass_core.specs.inner.Meeting.{MetRules};

    ghost Value = { MetRules };

    ghost view = { λ m. record { chains = m.rules.now; marks = m.marks } };

    ghost invariant = { λ m. AreMarksOf m.marks m.rules.now };
}

impl<'a> MetRules<'a> {
    /// Returns the rule set with no rule marked.
    pub(crate) fn none(alloc: Global, rules: &'a Ruleset) -> Result<MetRules<'a>, AllocError>
        ensures chains { IfOk result (λ met. met.chains ≡ rules.now) }
        ensures none { IfOk result (λ met. (place : Place) → is_marked met.marks place ≡ false) }
    {
        let marks = Marks::new(alloc, rules)?;
        Ok(MetRules { rules, marks })
    }

    /// Returns the rule set.
    pub(crate) fn rules(&self) -> &'a Ruleset
        ensures { result.now ≡ self.now.chains }
    {
        self.rules
    }

    /// Returns the marks of the rules.
    pub(crate) fn marks(&self) -> &Marks
        ensures { result.now ≡ self.now.marks }
    {
        &self.marks
    }

    /// Marks the rules that the least packet of a box meets in the state. Narrows the box until all of its
    /// packets meet the same rules.
    fn meet(&mut self, within: &mut PacketBox, state: CtState)
        requires { IsBox within.old }
        ensures part { Narrows within.old within.new }
        ensures chains { self.new.chains ≡ self.old.chains }
        ensures marked { (p : Packet) → IsIn within.new p → (place : Place) → (IsTrue (is_marked self.new.marks place) ↔ (IsTrue (is_marked self.old.marks place) ⊎ IsMet self.old.chains p state place)) }
    {
        let _decider = self.rules.meet_within(&mut self.marks, within, state);
    }
}

impl<'a> Visitor for MetRules<'a> {
    ghost use Rattle.pass_core.specs.inner.Meeting.{AreMarked, MarksMore};
    ghost use Rattle.pass_core.specs.laws.MeetingLaws.{marks_by_none, marks_by_both, marks_by_more, marked_still};

    ghost knows = { λ m p. AreMarked m p };

    ghost grows = { λ b x y. MarksMore b x y };

    fn visit(&mut self, within: &mut PacketBox) {
        self.meet(within, CtState::New);
        self.meet(within, CtState::Established);
    }

    ghost grows_by_none = { λ b x. marks_by_none b x };

    ghost grows_by_both = { λ b x y z one two. marks_by_both b x y z one two };

    ghost grows_by_more = { λ b part x y only more. marks_by_more b part x y only more };

    ghost keeps = { λ b x y p more marked. marked_still b x y p more marked };
}
