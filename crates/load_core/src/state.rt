//! The state of the table, as a caller reads it from the kernel.

ghost use Rattle.std.specs.Prelude.{◌≡◌, ◌||◌};
ghost use Rattle.load_core.specs.Orders.{free_generation, has, has_table, is_pending, is_sound, other, state_after, with_chains};

use crate::order::Order;

/// One of the two names under which the chains of a text stand in the table.
#[derive(Clone, Copy, Debug, PartialEq, Eq)]
pub enum Generation {
    /// The chains whose names end with `_a`.
    A,
    /// The chains whose names end with `_b`.
    B,
}

impl Generation {
    /// Returns the other generation.
    pub fn other(self) -> Generation
        ensures { result ≡ other self }
    {
        match self {
            Generation::A => Generation::B,
            Generation::B => Generation::A,
        }
    }
}

/// Where the base chain `forward` continues.
#[derive(Clone, Copy, Debug, PartialEq, Eq)]
pub enum Forward {
    /// There is no base chain.
    Absent,
    /// It continues in a generation that a user has not yet confirmed.
    Pending(Generation),
    /// It continues in a generation that a user has confirmed.
    Kept(Generation),
}

/// What the table has: no chains and no base chain if there is no table.
#[derive(Clone, Copy, Debug, PartialEq, Eq)]
pub struct State {
    /// Where the base chain continues.
    pub forward: Forward,
    /// Whether the table has chains of generation `a`.
    pub has_a: bool,
    /// Whether the table has chains of generation `b`.
    pub has_b: bool,
}

impl State {
    /// Whether the table has chains of the generation.
    pub fn has(self, generation: Generation) -> bool
        ensures { result ≡ has self generation }
    {
        match generation {
            Generation::A => self.has_a,
            Generation::B => self.has_b,
        }
    }

    /// Whether there is a table.
    pub fn has_table(self) -> bool
        ensures { result ≡ has_table self }
    {
        self.has_a || self.has_b
    }

    /// Whether `forward` continues in chains that the table has, if there is a base chain.
    pub fn is_sound(self) -> bool
        ensures { result ≡ is_sound self }
    {
        match self.forward {
            Forward::Absent => true,
            Forward::Pending(active) | Forward::Kept(active) => self.has(active),
        }
    }

    /// Whether `forward` continues in a generation that is not confirmed.
    pub fn is_pending(self) -> bool
        ensures { result ≡ is_pending self.forward }
    {
        matches!(self.forward, Forward::Pending(_))
    }

    /// Returns the generation that a load writes, once nothing is pending.
    pub fn free_generation(self) -> Generation
        ensures { result ≡ free_generation self.forward }
    {
        match self.forward {
            Forward::Absent => Generation::A,
            Forward::Pending(active) | Forward::Kept(active) => active.other(),
        }
    }

    /// Returns the state after an order.
    pub fn after(self, order: Order) -> State
        ensures { result ≡ state_after order self }
    {
        match order {
            Order::Write(generation) => self.with_chains(generation, true),
            Order::Erase(generation) => self.with_chains(generation, false),
            Order::Switch(generation) => State {
                forward: Forward::Pending(generation),
                ..self
            },
            Order::Keep(generation) => State {
                forward: Forward::Kept(generation),
                ..self
            },
            Order::Remove => State {
                forward: Forward::Absent,
                has_a: false,
                has_b: false,
            },
        }
    }

    // Returns the state with or without chains of the generation.
    fn with_chains(self, generation: Generation, has: bool) -> State
        ensures { result ≡ with_chains generation has self }
    {
        match generation {
            Generation::A => State { has_a: has, ..self },
            Generation::B => State { has_b: has, ..self },
        }
    }
}
