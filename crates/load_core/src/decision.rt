//! The decision: the orders of an event in a state.

ghost use Rattle.std.specs.Prelude.{◌≡◌, ◌+◌, ◌≤◌, ◌<◌, ◌∷◌, [], ◌++◌, IfOk, length, List, Result, Ok, Err};
ghost use Rattle.arrayvec.specs.ArrayVec.{array_vec_len};
ghost use Rattle.load_core.specs.History.{History, last_confirmed, last_load, table_of};
ghost use Rattle.load_core.specs.Orders.{confirmation, orders_of, state_after, state_after_all, start, way_back};
ghost use Rattle.load_core.specs.Promises.{ArePossible, IsOneOfTwo, IsSound, LeadsTo, RemovesLast, RemovesNothingConfirmed};
ghost use Rattle.load_core.specs.Table.{Table, Text, state_of, table_after_all};
ghost use Rattle.load_core.specs.inner.Views.{orders_view};

use crate::event::Event;
use crate::order::{ORDERS_MAX, Order, Refusal};
use crate::state::{Forward, State};
use arrayvec::ArrayVec;

/// Returns the orders of an event in the state that the caller has read, or why there are none.
pub fn step(event: Event, state: State) -> Result<ArrayVec<Order, ORDERS_MAX>, Refusal>
    ensures exact { orders_view result ≡ orders_of event state }

    // After every history, wherever its events were interrupted, a kept text is the one confirmed last, and a pending
    // text is that of the last load, with the confirmed one beside it.
    ensures one_of_two { (history : History) → IsOneOfTwo history }

    // After every history, the orders of an event that are all run lead to where the event has to lead.
    ensures leads { (history : History) (text : Text) → state_of (table_of history) ≡ state
        → IfOk result (λ orders. LeadsTo event text (last_load history) (last_confirmed history)
        (table_after_all text orders.items (table_of history))) }

    // In every table each order is possible in its turn. After it `forward` continues in chains that are there, and only
    // `remove` takes `forward` away.
    ensures possible { (table : Table) (text : Text) → IsSound table → state_of table ≡ state
        → IfOk result (λ orders. ArePossible text orders.items table) }

    // Only a user removes the table while a text is confirmed. No order follows a `remove`, unless a text is loaded.
    ensures removes { (history : History) → state_of (table_of history) ≡ state
        → IfOk result (λ orders. RemovesNothingConfirmed event (last_confirmed history) orders.items) }
    ensures removes_last { IfOk result (λ orders. RemovesLast event orders.items) }
{
    let mut orders = ArrayVec::new();
    match event {
        Event::Load => {
            let settled = go_back(&mut orders, state);
            start(&mut orders, settled);
        }
        Event::Now => {
            let settled = go_back(&mut orders, state);
            let started = start(&mut orders, settled);
            confirm(&mut orders, started);
        }
        Event::Confirm => {
            if !state.is_pending() {
                return Err(Refusal::NothingPending);
            }
            confirm(&mut orders, state);
        }
        Event::Back => {
            go_back(&mut orders, state);
        }
        Event::Remove => {
            if !state.has_table() {
                return Err(Refusal::NoTable);
            }
            give(&mut orders, state, Order::Remove);
        }
    }
    Ok(orders)
}

// Gives the orders of the way back, and returns the state after them.
fn go_back(orders: &mut ArrayVec<Order, ORDERS_MAX>, state: State) -> State
    requires { array_vec_len orders.old ≤ 4 }
    ensures items { orders.new.items ≡ orders.old.items ++ way_back state }
    ensures count { array_vec_len orders.new ≤ array_vec_len orders.old + 2 }
    ensures state { result ≡ state_after_all (way_back state) state }
{
    match state.forward {
        Forward::Absent => {
            if !state.has_table() {
                return state;
            }
            give(orders, state, Order::Remove)
        }
        Forward::Pending(active) => {
            let before = active.other();
            if !state.has(before) {
                return give(orders, state, Order::Remove);
            }
            let back = give(orders, state, Order::Keep(before));
            give(orders, back, Order::Erase(active))
        }
        Forward::Kept(active) => {
            let left = active.other();
            if !state.has(left) {
                return state;
            }
            give(orders, state, Order::Erase(left))
        }
    }
}

// Gives the orders by which a new text comes into force, and returns the state after them.
fn start(orders: &mut ArrayVec<Order, ORDERS_MAX>, state: State) -> State
    requires { array_vec_len orders.old ≤ 4 }
    ensures items { orders.new.items ≡ orders.old.items ++ start state }
    ensures count { array_vec_len orders.new ≤ array_vec_len orders.old + 2 }
    ensures state { result ≡ state_after_all (start state) state }
{
    let free = state.free_generation();
    let written = give(orders, state, Order::Write(free));
    give(orders, written, Order::Switch(free))
}

// Gives the orders by which the pending text is kept alone.
fn confirm(orders: &mut ArrayVec<Order, ORDERS_MAX>, state: State)
    requires { array_vec_len orders.old ≤ 4 }
    ensures items { orders.new.items ≡ orders.old.items ++ confirmation state }
{
    let Forward::Pending(active) = state.forward else {
        return;
    };
    let before = active.other();
    let kept = give(orders, state, Order::Keep(active));
    if state.has(before) {
        give(orders, kept, Order::Erase(before));
    }
}

// Gives an order, and returns the state after it.
fn give(orders: &mut ArrayVec<Order, ORDERS_MAX>, state: State, order: Order) -> State
    requires { array_vec_len orders.old < 6 }
    ensures items { orders.new.items ≡ orders.old.items ++ order ∷ [] }
    ensures count { array_vec_len orders.new ≡ array_vec_len orders.old + 1 }
    ensures state { result ≡ state_after order state }
{
    orders.push(order);
    state.after(order)
}
