//! Connection tracking. A connection is stored under its first packet, in an ordered map, with a
//! flag that is set when a packet in the reverse direction is seen.

ghost use Rattle.std.specs.Prelude.{◌≡◌, [], Some, None, OnOk, OnErr};
ghost use Rattle.pkt_core.specs.inner.ConnectionTable.{kept_in, Begins, connection_of, state_by};
ghost use Rattle.pkt_core.specs.inner.PolicyRuns.{TracksAsExpected};
ghost use Rattle.pkt_core.specs.Tracking.{after_forget, after_seen, state_of, with_connection};

use crate::connection::Connection;
use host_net::{CtState, Packet};
use std::alloc::{AllocError, Global};
use std::collections::BTreeMap;
use std::marker::Model;

/// The connection table.
#[derive(Drop)]
pub struct Track {
    kept: BTreeMap<Packet, bool>,
}

impl Model for Track {
    ghost use Rattle.std.specs.Prelude.{Bool, List};
    ghost use Rattle.host_net.specs.declared.packet.Packet.{Packet};

    ghost Value = { List (Packet × Bool) };

    ghost view = { λ track. track.kept.entries };
}

impl Track {
    /// Returns an empty connection table.
    pub fn new(alloc: Global) -> Track
        ensures empty { result ≡ [] }

        // With the verdicts of a policy, each packet has the result that is defined over the events
        // only.
        ensures expected { TracksAsExpected (kept_in result) }
    {
        Track {
            kept: BTreeMap::new(alloc),
        }
    }

    /// Returns the connection of a packet.
    #[tactic(auto, using(crate::proofs::ConnectionLemmas::state_is))]
    pub fn connection_of(&self, packet: &Packet) -> Connection
        ensures found { result ≡ connection_of (kept_in self.now) packet.now }
        ensures state { state_by result ≡ state_of (kept_in self.now) packet.now }
    {
        if let Some(answered) = mark(&self.kept, &packet.swap()) {
            return Connection::Answers(answered);
        }
        match mark(&self.kept, packet) {
            Some(answered) => Connection::Begun(answered),
            None => Connection::Unknown,
        }
    }

    /// Returns the state of a packet: established if it answers a connection, or if it belongs to a
    /// connection that was answered.
    pub fn state_of(&self, packet: &Packet) -> CtState
        ensures { result ≡ state_of (kept_in self.now) packet.now }
    {
        self.connection_of(packet).state()
    }

    /// Tracks a packet that was seen. `accepted` states whether it was forwarded.
    pub fn step(&mut self, packet: &Packet, accepted: bool) -> Result<(), AllocError>
        ensures tracked { OnOk result (
            kept_in self.new ≡ after_seen (kept_in self.old) packet.now accepted) }
        ensures unchanged { OnErr result (self.new ≡ self.old) }

        // Only a new connection allocates memory.
        ensures begins { OnErr result (Begins (kept_in self.old) packet.now accepted) }
    {
        let connection = self.connection_of(packet);
        self.step_in(connection, packet, accepted)
    }

    /// Does the same as `step`, for a packet whose connection is already looked up.
    pub fn step_in(
        &mut self,
        connection: Connection,
        packet: &Packet,
        accepted: bool,
    ) -> Result<(), AllocError>
        requires { connection ≡ connection_of (kept_in self.old) packet.now }
        ensures tracked { OnOk result (
            kept_in self.new ≡ after_seen (kept_in self.old) packet.now accepted) }
        ensures unchanged { OnErr result (self.new ≡ self.old) }
        ensures begins { OnErr result (Begins (kept_in self.old) packet.now accepted) }
    {
        match connection {
            Connection::Answers(false) => keep(&mut self.kept, &packet.swap(), true),
            Connection::Unknown if accepted => keep(&mut self.kept, packet, false),
            Connection::Answers(true) | Connection::Begun(_) | Connection::Unknown => Ok(()),
        }
    }

    /// Removes the connection of a packet, in both directions.
    pub fn forget(&mut self, packet: &Packet)
        ensures { kept_in self.new ≡ after_forget (kept_in self.old) packet.now }
    {
        remove(&mut self.kept, packet);
        remove(&mut self.kept, &packet.swap());
    }
}

/// Returns whether the connection that the packet began is answered, or `None` if it is not
/// tracked.
fn mark(kept: &BTreeMap<Packet, bool>, packet: &Packet) -> Option<bool>
    ensures { result ≡ kept_in kept.now.entries packet.now }
{
    kept.get(packet).copied()
}

/// Stores a connection with this flag.
fn keep(
    kept: &mut BTreeMap<Packet, bool>,
    packet: &Packet,
    answered: bool,
) -> Result<(), AllocError>
    ensures kept { OnOk result (
        kept_in kept.new.entries ≡ with_connection (kept_in kept.old.entries) packet.now (Some answered)) }
    ensures unchanged { OnErr result (kept.new.entries ≡ kept.old.entries) }
    ensures refused { OnErr result (kept_in kept.old.entries packet.now ≡ None) }
{
    kept.insert(*packet, answered)?;
    Ok(())
}

fn remove(kept: &mut BTreeMap<Packet, bool>, packet: &Packet)
    ensures { kept_in kept.new.entries ≡ with_connection (kept_in kept.old.entries) packet.now None }
{
    kept.remove(packet);
}
