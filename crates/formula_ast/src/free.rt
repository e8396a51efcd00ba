//! The free variables of a formula.
ghost use Rattle.std.specs.Prelude.{◌≡◌, ℕ, [], ◌∷◌, ◌++◌, flat_map, Contains, ◌↔◌, IfOk, OnOk};
ghost use Rattle.formula_ast.specs.Collecting.{Collects, without_all};
ghost use Rattle.formula_ast.specs.Forms.{form_of};
ghost use Rattle.formula_ast.specs.Occurrences.{without, variables_in, first_occurrences, free_occurrences};
ghost use Rattle.formula_ast.specs.Terms.{list_of};
ghost use Rattle.formula_ast.specs.WellFormed.{IsFreeIn};

use crate::{Formula, Term, Terms};
use sqlite_items::Boxed;
use std::alloc::Global;
use tree_model::{NoMemory, Places};

// The free variables that were met, each once, and the variables that quantifiers bind here.
#[derive(Drop)]
struct Free {
    met: Places,
    bound: Vec<usize>,
}

impl Free {
    // Meets a variable.
    fn variable(&mut self, x: usize) -> Result<(), NoMemory>
        ensures bound { OnOk result (self.new.bound.items ≡ self.old.bound.items) }
        ensures met { OnOk result (Collects self.old.met self.new.met (without_all self.old.bound.items (x ∷ []))) }
    {
        if self.bound.contains(&x) || self.met.as_slice().contains(&x) {
            return Ok(());
        }
        self.met.push(x)
    }

    // Meets the variables of a term.
    #[cycle(free)]
    fn term(&mut self, t: &Term) -> Result<(), NoMemory>
        ensures bound { OnOk result (self.new.bound.items ≡ self.old.bound.items) }
        ensures met { OnOk result (Collects self.old.met self.new.met (without_all self.old.bound.items (variables_in t.now))) }
    {
        match t {
            Term::Var(x) => self.variable(*x),
            Term::App(_, ts) => self.terms(ts),
        }
    }

    // Meets the variables of terms, one after another.
    #[cycle(free)]
    fn terms(&mut self, ts: &Terms) -> Result<(), NoMemory>
        ensures bound { OnOk result (self.new.bound.items ≡ self.old.bound.items) }
        ensures met { OnOk result (Collects self.old.met self.new.met (without_all self.old.bound.items (flat_map variables_in (list_of ts.now)))) }
    {
        for t in ts.as_slice() {
            self.term(t)?;
        }
        Ok(())
    }

    // Meets the variables of two terms.
    fn pair(&mut self, t: &Term, s: &Term) -> Result<(), NoMemory>
        ensures bound { OnOk result (self.new.bound.items ≡ self.old.bound.items) }
        ensures met { OnOk result (Collects self.old.met self.new.met (without_all self.old.bound.items (variables_in t.now ++ variables_in s.now))) }
    {
        self.term(t)?;
        self.term(s)
    }

    // Meets the free variables of a formula.
    #[cycle(formula)]
    fn formula(&mut self, f: &Formula) -> Result<(), NoMemory>
        ensures bound { OnOk result (self.new.bound.items ≡ self.old.bound.items) }
        ensures met { OnOk result (Collects self.old.met self.new.met (without_all self.old.bound.items (free_occurrences (form_of f.now)))) }
    {
        match f {
            Formula::True | Formula::False => Ok(()),
            Formula::Eq(t, s) | Formula::Differ(t, s) => self.pair(t, s),
            Formula::Finite(t) | Formula::Win(_, _, t) => self.term(t),
            Formula::Call(_, ts) => self.terms(ts),
            Formula::Not(f) => self.formula(f.get()),
            Formula::And(f, g) | Formula::Or(f, g) | Formula::Imp(f, g) | Formula::Iff(f, g) => {
                self.formula(f.get())?;
                self.formula(g.get())
            }
            Formula::Exists(x, f) | Formula::Forall(x, f) => self.under(*x, f),
        }
    }

    // Meets the free variables of a formula but for the variable that a quantifier in front of it binds.
    #[cycle(formula)]
    fn under(&mut self, x: usize, f: &Boxed<Formula>) -> Result<(), NoMemory>
        ensures bound { OnOk result (self.new.bound.items ≡ self.old.bound.items) }
        ensures met { OnOk result (Collects self.old.met self.new.met (without_all self.old.bound.items (without x (free_occurrences (form_of f.now))))) }
    {
        self.bound.push(x)?;
        self.formula(f.get())?;
        let _ = self.bound.pop();
        Ok(())
    }
}

/// The free variables of a formula, each once, by first occurrence from left to right. A variable's place in the list
/// is its rank. The work grows with the size of the formula times the number of its free variables and the depth of its
/// quantifiers.
pub fn free_variables(alloc: Global, f: &Formula) -> Result<Places, NoMemory>
    ensures order { IfOk result (λ variables. variables ≡ first_occurrences (free_occurrences (form_of f.now))) }
    ensures free { IfOk result (λ variables. (x : ℕ) → Contains variables x ↔ IsFreeIn x (form_of f.now)) }
{
    let mut free = Free {
        met: Places::new(alloc),
        bound: Vec::new(alloc),
    };
    free.formula(f)?;
    let Free { met, bound: _ } = free;
    Ok(met)
}
