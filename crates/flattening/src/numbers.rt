ghost use Rattle.std.specs.Prelude.{◌≡◌, ℕ, List, [], ◌∷◌, ◌++◌, IfOk, OnOk, OnErr};
ghost use Rattle.flattening.specs.Numbers.{given_ranks, number_by};

use std::alloc::Global;
use std::marker::Model;
use tree_model::{NoMemory, Places};

// The numbers that the variables of a formula have: pairs of a variable and its number, of which the last counts.
#[derive(Drop)]
pub(crate) struct Numbers {
    given: Vec<(usize, usize)>,
}

impl Model for Numbers {
    ghost use Rattle.std.specs.Prelude.{List, ℕ};

    ghost Value = { List (ℕ × ℕ) };

    ghost view = { λ n. n.given.items };
}

impl Numbers {
    // Each of the variables has its place as number.
    pub(crate) fn of_ranks(alloc: Global, ranks: &Places) -> Result<Numbers, NoMemory>
        ensures { IfOk result (λ numbers. numbers ≡ given_ranks 0 ranks.now) }
    {
        let mut numbers = Numbers {
            given: Vec::new(alloc),
        };
        for (rank, &variable) in ranks.as_slice().iter().enumerate() {
            numbers.give(variable, rank)?;
        }
        Ok(numbers)
    }

    // Gives the variable another number.
    pub(crate) fn give(&mut self, variable: usize, number: usize) -> Result<(), NoMemory>
        ensures ok { OnOk result (self.new ≡ self.old ++ (variable, number) ∷ []) }
        ensures err { OnErr result (self.new ≡ self.old) }
    {
        self.given.push((variable, number))?;
        Ok(())
    }

    // Takes back the number that was given last.
    pub(crate) fn take_back(&mut self)
        ensures { (front : List (ℕ × ℕ)) (last : ℕ × ℕ) → self.old ≡ front ++ last ∷ [] → self.new ≡ front }
    {
        self.given.pop();
    }

    // The number of a variable.
    pub(crate) fn of(&self, variable: usize) -> usize
        ensures { result ≡ number_by self.now variable }
    {
        let mut number = 0;
        for pair in self.given.as_slice() {
            if pair.0 == variable {
                number = pair.1;
            }
        }
        number
    }
}
