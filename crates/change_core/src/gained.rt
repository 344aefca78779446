//! The question whether a packet belongs to flows of one policy, and not to flows of another.

ghost use Rattle.std.specs.Prelude.{◌≡◌, ◌↔◌};
ghost use Rattle.host_net.specs.declared.packet.Packet.{Packet};
ghost use Rattle.change_core.specs.Changes.{ChangesBy};
ghost use Rattle.change_core.specs.inner.Candidates.{may_gain, new_hosts, old_hosts};
ghost use Rattle.change_core.specs.inner.Gaining.{IsGained};

use crate::kind::ChangeKind;
use crate::owner_pair::OwnerPair;
use crate::policy_flows::PolicyFlows;
use header_space::{Cut, PacketBox, Question};
use pkt_core::FlowPolicy;
use std::alloc::{AllocError, Global};

/// The question whether a packet belongs to the flows `held`, and not to the flows `lost`.
#[derive(Drop)]
pub(crate) struct Gained<'a> {
    held: PolicyFlows<'a>,
    lost: PolicyFlows<'a>,
    /// Whether the flows `held` are those of the new policy, and the flows `lost` are those of the old policy.
    comes: bool,
}

impl<'a> Gained<'a> {
    /// Returns the question whether a packet changes by the kind from the old policy to the new policy.
    pub(crate) fn by(
        kind: ChangeKind,
        old: &'a FlowPolicy<'a>,
        new: &'a FlowPolicy<'a>,
    ) -> Gained<'a>
        ensures gained { (p : Packet) → (IsGained result.lost result.held p ↔ ChangesBy old.now new.now kind p) }
        ensures new { new_hosts result ≡ new.now.site.hosts }
        ensures old { old_hosts result ≡ old.now.site.hosts }
    {
        match kind {
            ChangeKind::FlowComes => Gained {
                held: PolicyFlows::permitted(new),
                lost: PolicyFlows::permitted(old),
                comes: true,
            },
            ChangeKind::FlowGoes => Gained {
                held: PolicyFlows::permitted(old),
                lost: PolicyFlows::permitted(new),
                comes: false,
            },
            ChangeKind::AnswersCome => Gained {
                held: PolicyFlows::stateful(new),
                lost: PolicyFlows::stateful(old),
                comes: true,
            },
            ChangeKind::AnswersGo => Gained {
                held: PolicyFlows::stateful(old),
                lost: PolicyFlows::stateful(new),
                comes: false,
            },
        }
    }

    /// Whether a packet may be gained whose addresses have the owners `newer` under the new description, and the
    /// owners `older` under the old description.
    pub(crate) fn may_gain(&self, newer: OwnerPair, older: OwnerPair) -> bool
        ensures { result ≡ may_gain self.now newer older }
    {
        if self.comes {
            self.held.gain(newer, &self.lost, older)
        } else {
            self.held.gain(older, &self.lost, newer)
        }
    }
}

impl<'a> Question for Gained<'a> {
    ghost use Rattle.change_core.specs.inner.Gaining.{IsGained};

    ghost holds_of = { λ q p. IsGained q.lost q.held p };

    fn ask(&self, within: &mut PacketBox) -> bool {
        let has = self.held.have_within(within);
        has && !self.lost.have_within(within)
    }

    fn restrict(
        &self,
        _alloc: Global,
        _within: &PacketBox,
    ) -> Result<Option<Gained<'a>>, AllocError> {
        Ok(None)
    }

    fn cut(&self, _within: &PacketBox) -> Option<Cut> {
        None
    }
}
