//! Records of the rules that packets meet.

ghost use Rattle.std.specs.Prelude.{◌<◌, List, length};
ghost use Rattle.ipt_rules.specs.Chain.{Chain, rules_of};
ghost use Rattle.ipt_rules.specs.declared.marks.Place.{Place};
ghost use Rattle.ipt_rules.specs.inner.Walking.{Records};

use crate::marks::{Marks, Place};

/// A record of the rules that packets meet.
pub(crate) trait Record: Sized {
    ghost has: { Self → Place → Type 0 };

    ghost is_for: { Self → List Chain → Type 0 };

    /// Records the rule at a place if it matches.
    fn record_if(&mut self, fits: bool, place: Place)
        requires { (chains : List Chain) × is_for self.old chains × (place.rule < length (rules_of chains place.chain)) }
        ensures records { Records fits place (has self.old) (has self.new) }
        ensures same { (chains : List Chain) → is_for self.old chains → is_for self.new chains };
}

/// No record.
#[derive(Drop)]
pub(crate) struct NoRecord;

impl Record for NoRecord {
    ghost use Rattle.std.specs.Prelude.{⊤};

    ghost has = { λ x place. ⊤ };

    ghost is_for = { λ x chains. ⊤ };

    fn record_if(&mut self, _fits: bool, _place: Place) {}
}

impl Record for Marks {
    ghost use Rattle.std.specs.Prelude.{IsTrue};
    ghost use Rattle.ipt_rules.specs.Marks.{AreMarksOf, is_marked};

    ghost has = { λ marks place. IsTrue (is_marked marks place) };

    ghost is_for = { AreMarksOf };

    fn record_if(&mut self, fits: bool, place: Place) {
        self.mark_if(fits, place);
    }
}
