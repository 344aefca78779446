//! Changes from one policy to another.

ghost use Rattle.std.specs.Prelude.{◌≡◌};
ghost use Rattle.change_core.specs.inner.Changing.{change_of};

use crate::kind::ChangeKind;
use crate::named_owner::NamedOwner;
use pass_core::{PairServices, PassingRange};

/// The services of which packets from one owner to another change by one kind, wholly or in part. In a
/// range, `passes` is a packet that changes, and `stays` is a packet that does not change.
#[derive(Drop)]
pub struct Change {
    /// The owner of the sources.
    pub from: NamedOwner,
    /// The owner of the destinations.
    pub to: NamedOwner,
    pub kind: ChangeKind,
    pub ranges: Vec<PassingRange>,
}

impl Change {
    /// Returns the change of a pair of owners by their numbers, if the new description has `count` hosts.
    pub(crate) fn of(pair: PairServices, kind: ChangeKind, count: u16) -> Change
        ensures { result ≡ change_of kind count pair }
    {
        Change {
            from: NamedOwner::of_number(pair.from, count),
            to: NamedOwner::of_number(pair.to, count),
            kind,
            ranges: pair.ranges,
        }
    }
}
