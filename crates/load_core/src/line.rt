//! Orders and refusals as lines.

ghost use Rattle.std.specs.Prelude.{◌≡◌, ◌≤◌, OnOk, OnErr};
ghost use Rattle.std.specs.Io.KnownBytes.{append_known};
ghost use Rattle.edge_io.specs.Counts.{Rose};
ghost use Rattle.edge_io.specs.Observable.{AppendsPrefixOf};
ghost use Rattle.load_core.specs.Words.{lines_of, order_line, refusal_line};

use crate::order::{Order, Refusal};
use crate::state::Generation;
use edge_io::{Sink, WriteFault, put_all};

impl Order {
    /// Returns the line of the order.
    pub fn line(self) -> &'static [u8]
        ensures { result.now ≡ order_line self }
    {
        match self {
            Order::Write(Generation::A) => b"write a\n",
            Order::Write(Generation::B) => b"write b\n",
            Order::Switch(Generation::A) => b"switch a\n",
            Order::Switch(Generation::B) => b"switch b\n",
            Order::Keep(Generation::A) => b"keep a\n",
            Order::Keep(Generation::B) => b"keep b\n",
            Order::Erase(Generation::A) => b"erase a\n",
            Order::Erase(Generation::B) => b"erase b\n",
            Order::Remove => b"remove\n",
        }
    }
}

impl Refusal {
    /// Returns the line that says why the event is refused.
    pub fn line(self) -> &'static [u8]
        ensures { result.now ≡ refusal_line self }
    {
        match self {
            Refusal::NothingPending => b"topos-step: nothing is pending\n",
            Refusal::NoTable => b"topos-step: there is no table\n",
        }
    }
}

/// Writes the lines of the orders, and stops at the first fault.
pub fn put_orders<O: Sink>(sink: &mut O, orders: &[Order]) -> Result<(), WriteFault>
    ensures prefix { AppendsPrefixOf (O.held sink.old) (O.held sink.new) (lines_of orders.now) }
    ensures whole { OnOk result (O.held sink.new ≡ append_known (O.held sink.old) (lines_of orders.now)) }
    ensures faults_monotone { O.faults sink.old ≤ O.faults sink.new }
    ensures fault { OnErr result (Rose (O.faults sink.old) (O.faults sink.new)) }
{
    for order in orders {
        put_all(sink, order.line())?;
    }
    Ok(())
}
