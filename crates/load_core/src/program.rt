//! The whole program, over any two sinks.

ghost use Rattle.std.specs.Prelude.{◌≡◌, ◌≢◌, ◌≤◌, map, string_bytes};
ghost use Rattle.load_core.specs.Orders.{orders_of};
ghost use Rattle.load_core.specs.Program.{IsDelivered, reply_of, usage_reply};
ghost use Rattle.load_core.specs.Words.{IsNoRequest, IsRequest, Request};
ghost use Rattle.load_core.specs.inner.Words.{reply_to, request_of};

use crate::decision::step;
use crate::line::put_orders;
use crate::request::{parse_request, usage};
use crate::status::Status;
use edge_io::{Sink, put_all};

/// Decides on the event and the state of the words: writes the orders to `out`, or the line to `err` that says why
/// there are none.
pub fn run<O: Sink, E: Sink>(words: &[String], out: &mut O, err: &mut E) -> Status
    // The words decide the orders, and these the bytes on both streams and the status.
    ensures decided { (request : Request) → IsRequest (map string_bytes words.now) request
        → IsDelivered O.Sink E.Sink out.old out.new err.old err.new (reply_of (orders_of request.event request.state)) result }
    ensures usage { IsNoRequest (map string_bytes words.now)
        → IsDelivered O.Sink E.Sink out.old out.new err.old err.new usage_reply result }
    ensures output_unchanged { result ≢ Status.Done → result ≢ Status.WriteFault → out.new ≡ out.old }
    ensures stderr_unchanged { result ≡ Status.Done → err.new ≡ err.old }
    ensures faults_monotone { (O.faults out.old ≤ O.faults out.new) × (E.faults err.old ≤ E.faults err.new) }
{
    answer(words, out, err)
}

// Writes the reply to the words.
fn answer<O: Sink, E: Sink>(words: &[String], out: &mut O, err: &mut E) -> Status
    ensures delivered { IsDelivered O.Sink E.Sink out.old out.new err.old err.new
        (reply_to (request_of (map string_bytes words.now))) result }
    ensures output_unchanged { result ≢ Status.Done → result ≢ Status.WriteFault → out.new ≡ out.old }
    ensures stderr_unchanged { result ≡ Status.Done → err.new ≡ err.old }
    ensures faults_monotone { (O.faults out.old ≤ O.faults out.new) × (E.faults err.old ≤ E.faults err.new) }
{
    let Some((event, state)) = parse_request(words) else {
        let _ = put_all(err, usage());
        return Status::Usage;
    };
    match step(event, state) {
        Ok(orders) => {
            if put_orders(out, orders.as_slice()).is_err() {
                let _ = put_all(err, b"topos-step: cannot write\n");
                return Status::WriteFault;
            }
            Status::Done
        }
        Err(refusal) => {
            let _ = put_all(err, refusal.line());
            Status::Refused
        }
    }
}
