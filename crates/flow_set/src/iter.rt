//! Iteration over a flow set in order. The iterator is a type of this crate, so callers do not
//! depend on the representation of a set.

ghost use Rattle.std.specs.Prelude.{◌≡◌};
ghost use Rattle.std.specs.Iterator.{YieldsFirst, item_count};

use crate::flow::Flow;
use crate::set::FlowSet;
use std::marker::Model;

/// The remaining flows of a set, in order.
#[derive(Drop)]
pub struct Iter<'a> {
    set: &'a FlowSet,
    // The position of the first remaining flow.
    from: u16,
    to: u16,
}

impl<'a> Model for Iter<'a> {
    ghost use Rattle.std.specs.Prelude.{List};
    ghost use Rattle.flow_set.specs.inner.BitRows.{flows_from};
    ghost use Rattle.flow_set.specs.declared.flow.Flow.{Flow};

    ghost Value = { List Flow };

    ghost view = { λ i. flows_from i.set.now.flows (record { from = i.from; to = i.to }) };
}

impl<'a> Iter<'a> {
    pub(crate) fn new(set: &'a FlowSet) -> Iter<'a>
        ensures { result ≡ set.now.flows }
    {
        Iter {
            set,
            from: 0,
            to: 0,
        }
    }
}

impl<'a> Iterator for Iter<'a> {
    type Item = Flow;

    ghost next_gives = { YieldsFirst (λ left. left) };

    ghost remaining = { item_count (λ left. left) };

    fn next(&mut self) -> Option<Flow> {
        let set: &FlowSet = self.set;
        match set.at_or_after(self.from, self.to) {
            None => None,
            Some(f) => {
                self.from = f.from;
                self.to = f.to + 1;
                Some(f)
            }
        }
    }
}
