//! Rules as a question holds them: all rules, or the rules of a slice for the packets of a box.

ghost use Rattle.std.specs.Prelude.{◌≡◌, IfOk, IfSome};
ghost use Rattle.host_net.specs.declared.packet.Packet.{Packet};
ghost use Rattle.header_space.specs.Boxes.{IsBox, IsIn, Narrows};
ghost use Rattle.rules_space.specs.Rules.{Chains, chains_of, filter_of};
ghost use Rattle.rules_space.specs.RulesView.{rules_of};
ghost use Rattle.rules_space.specs.Verdicts.{GivesOne, HaveSameVerdicts};

use crate::rules_ref::RulesRef;
use header_space::PacketBox;
use host_net::CtState;
use ipt_rules::{ChainsRef, Slice};
use std::alloc::{AllocError, Global};
use std::marker::Model;

#[derive(Drop)]
enum Held<'a> {
    Whole(RulesRef<'a>),
    Own(Slice),
    Lent(&'a Slice),
}

/// All rules, or the rules of a slice, which has the rules that decide the packets of a box.
#[derive(Drop)]
pub struct HeldRules<'a> {
    held: Held<'a>,
}

impl<'a> Model for HeldRules<'a> {
    ghost use Rattle.rules_space.specs.Rules.{AnyRules, filter_of};
    ghost use Rattle.rules_space.specs.RulesView.{held_rules};
    ghost use Rattle.rules_space.specs.Verdicts.{GivesOne};

    ghost Value = { AnyRules };

    ghost view = { λ r. held_rules r.held };

    ghost invariant = { λ r. GivesOne (filter_of (held_rules r.held)) };
}

impl<'a> HeldRules<'a> {
    /// Returns all rules.
    pub fn whole(rules: RulesRef<'a>) -> HeldRules<'a>
        ensures { result ≡ rules_of rules.entry }
    {
        // This call makes known that a packet passes or does not.
        let _rules = rules.rules();
        HeldRules {
            held: Held::Whole(rules),
        }
    }

    /// Returns the same rules, with a borrowed slice.
    pub fn by_ref(&self) -> HeldRules<'_>
        ensures { result ≡ self.now }
    {
        HeldRules {
            held: match &self.held {
                Held::Whole(rules) => Held::Whole(*rules),
                Held::Own(slice) => Held::Lent(slice),
                Held::Lent(slice) => Held::Lent(slice),
            },
        }
    }

    /// Returns the chains, if these are rules of a packet filter.
    pub fn as_chains(&self) -> Option<ChainsRef<'_>>
        ensures { result ≡ chains_of self.now }
    {
        match &self.held {
            Held::Whole(RulesRef::Ipt(rules)) => Some(rules.as_chains()),
            Held::Whole(RulesRef::Ofp(_)) => None,
            Held::Own(slice) => Some(slice.as_chains()),
            Held::Lent(slice) => Some(slice.as_chains()),
        }
    }

    /// States that the rules have one verdict on each packet.
    pub fn gives_one(&self)
        ensures { GivesOne (filter_of self.now) }
    {
        // The use of this field makes the invariant known.
        let _held = &self.held;
    }

    /// Whether the rules forward the packets of a box in a state. The box is narrowed to packets with the
    /// same result.
    pub fn passes_within(&self, within: &mut PacketBox, state: CtState) -> bool
        requires { IsBox within.old }
        ensures part { Narrows within.old within.new }
        ensures passes { (p : Packet) → IsIn within.new p → filter_of self.now state p result }
    {
        match &self.held {
            Held::Whole(rules) => rules.passes_within(within, state),
            Held::Own(slice) => slice.verdict_within(within, state).is_forward(),
            Held::Lent(slice) => slice.verdict_within(within, state).is_forward(),
        }
    }

    /// Returns the slice of the rules for the packets of a box, if it is worth its cost.
    pub fn slice(
        &self,
        alloc: Global,
        within: &PacketBox,
    ) -> Result<Option<HeldRules<'a>>, AllocError>
        ensures { IfOk result (λ rules. IfSome rules (HaveSameVerdicts within.now self.now)) }
    {
        match self.own_slice(alloc, within)? {
            None => Ok(None),
            Some(slice) => {
                // This call makes known that a packet passes by the slice or does not.
                let _rules = slice.rules();
                Ok(Some(HeldRules {
                    held: Held::Own(slice),
                }))
            }
        }
    }

    fn own_slice(&self, alloc: Global, within: &PacketBox) -> Result<Option<Slice>, AllocError>
        ensures { IfOk result (λ slice. IfSome slice (λ chains. HaveSameVerdicts within.now self.now (Chains chains))) }
    {
        match &self.held {
            Held::Whole(rules) => rules.slice(alloc, within),
            Held::Own(slice) => slice.slice(alloc, within),
            Held::Lent(slice) => slice.slice(alloc, within),
        }
    }
}
