//! Numbers drawn from a start: the same start gives the same numbers.
#![tactic(auto)]

ghost use Rattle.std.specs.Prelude.{◌≡◌, ◌<◌, ◌%◌};
ghost use Rattle.draws.specs.Draws.{next, drawn};

#[cfg(test)]
mod tests;

use std::marker::Model;

// How many states there are. With the multiplier and the increment of `next` it stands in the table of constants for
// quick generators of Press, Teukolsky, Vetterling and Flannery, "Numerical Recipes in C".
const STATES: u64 = 53125;

/// A state of the generator.
#[derive(Clone, Copy, Debug)]
pub struct Draws {
    state: u64,
}

impl Model for Draws {
    ghost use Rattle.std.specs.Prelude.{ℕ, ◌<◌};

    ghost Value = { ℕ };

    ghost view = { λ it. it.state };

    ghost invariant = { λ it. it.state < 53125 };

    ghost inverse = { λ state. record { state = state } };
}

impl Draws {
    /// Begins with the start, reduced to a state.
    pub fn new(start: u64) -> Draws
        ensures { result ≡ start % 53125 }
    {
        Draws {
            state: start % STATES,
        }
    }

    /// The next number below `outcomes`, or 0 where there is none.
    pub fn draw(&mut self, outcomes: u64) -> u64
        ensures next_state { self.new ≡ next self.old }
        ensures number { result ≡ drawn self.new outcomes }
        ensures below { 0 < outcomes → result < outcomes }
    {
        self.state = (171 * self.state + 11213) % STATES;
        (self.state as u128 * outcomes as u128 / STATES as u128) as u64
    }
}
