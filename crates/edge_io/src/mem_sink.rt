//! A sink in memory, for tests and for runs on given files. Its bytes are observable. Writes with
//! given numbers fail, and so do writes to a full sink.
ghost use Rattle.std.specs.Prelude.{◌≡◌, ◌<◌, Some, IfOk};

use crate::fault_plan::FaultPlan;
use crate::{Failed, Sink};
use std::alloc::{AllocError, Global};
use std::marker::Model;

/// A sink of limited capacity that accepts at most `grain` bytes in one write.
#[derive(Drop)]
pub struct MemSink {
    bytes: Vec<u8>,
    room: usize,
    grain: usize,
    plan: FaultPlan,
}

impl Model for MemSink {
    ghost use Rattle.std.specs.Prelude.{◌<◌, ◌≤◌, vec_len, vec_capacity};
    ghost use Rattle.edge_io.specs.inner.MemSink.{Held};

    ghost Value = { Held };

    ghost view = { λ s. record { bytes = s.bytes.items; room = s.room; grain = s.grain; plan = s.plan } };

    ghost invariant = { λ s. (vec_len s.bytes ≤ s.room) × (s.room ≤ vec_capacity s.bytes) × (0 < s.grain) };
}

impl MemSink {
    ghost use Rattle.edge_io.specs.Failures.{CountsOnlyFailures};
    ghost use Rattle.edge_io.specs.inner.Calls.{CountsOnce};
    ghost use Rattle.edge_io.specs.inner.MemSink.{fresh_sink};

    /// Returns a sink with a capacity of `room` bytes. `fails` has the numbers of the writes that
    /// fail; the first write has number 1.
    pub fn new(
        alloc: Global,
        room: usize,
        grain: usize,
        fails: Vec<u32>,
    ) -> Result<MemSink, AllocError>
        requires { 0 < grain }
        ensures fresh { IfOk result (λ sink. sink ≡ fresh_sink room grain fails.items) }
        ensures one_fault_per_failure { CountsOnce ⟦<MemSink as Sink>⟧.faults ⟦<MemSink as Sink>⟧.write_gives }
        ensures counts { CountsOnlyFailures ⟦<MemSink as Sink>⟧.faults ⟦<MemSink as Sink>⟧.write_gives }
    {
        Ok(MemSink {
            bytes: Vec::with_capacity(alloc, room)?,
            room,
            grain,
            plan: FaultPlan::new(fails),
        })
    }

    /// Returns the accepted bytes.
    pub fn bytes(&self) -> &[u8]
        ensures { result.now ≡ self.now.bytes }
    {
        &self.bytes
    }
}

impl Sink for MemSink {
    ghost use Rattle.edge_io.specs.inner.MemSink.{Writes};

    ghost held = { λ s. Some s.bytes };

    ghost faults = { λ s. s.plan.faults };

    ghost write_gives = { λ old piece result new. Writes old piece result new };

    fn write(&mut self, piece: &[u8]) -> Result<usize, Failed> {
        self.plan.count_call()?;
        let free = self.room - self.bytes.len();
        if free == 0 && !piece.is_empty() {
            self.plan.count_fault();
            return Err(Failed);
        }
        let count = piece.len().min(self.grain).min(free);
        self.bytes.extend_from_slice(&piece[..count]).unwrap();
        Ok(count)
    }
}
