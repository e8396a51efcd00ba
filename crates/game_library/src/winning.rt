//! Winning as a formula.
ghost use Rattle.std.specs.Prelude.{◌≡◌, [], ◌∷◌, IfOk};
ghost use Rattle.formula_ast.specs.declared.term.Term.{Var};
ghost use Rattle.formula_ast.specs.Forms.{form_of, call, win, no, and, exists};
ghost use Rattle.form_facts.specs.Winning.{winning_form};

use formula_ast::{Formula, Term, Terms};
use lists::NoMemory;
use sqlite_items::Boxed;
use std::alloc::Global;

// A move from one variable to another, by the predicate at this place.
#[tactic(auto, using(formula_ast::proofs::Ties::form_rules))]
fn move_between(alloc: Global, p: usize, from: usize, to: usize) -> Result<Formula, NoMemory>
    ensures { IfOk result (λ f. form_of f ≡ call p (Var from ∷ Var to ∷ [])) }
{
    let mut terms = Terms::new(alloc);
    terms.push(Term::Var(from))?;
    terms.push(Term::Var(to))?;
    Ok(Formula::Call(p, terms))
}

// The negation.
#[tactic(auto, using(formula_ast::proofs::Ties::form_rules))]
fn not(alloc: Global, f: Formula) -> Result<Formula, NoMemory>
    ensures { IfOk result (λ made. form_of made ≡ no (form_of f)) }
{
    Ok(Formula::Not(Boxed::new(alloc, f)?))
}

// A move between the variables leads to some value of the second where the formula holds.
#[tactic(auto, using(formula_ast::proofs::Ties::form_rules))]
fn moves_to(
    alloc: Global,
    p: usize,
    from: usize,
    to: usize,
    f: Formula,
) -> Result<Formula, NoMemory>
    ensures { IfOk result (λ made. form_of made ≡ exists to (and (call p (Var from ∷ Var to ∷ [])) (form_of f))) }
{
    let moved = Boxed::new(alloc, move_between(alloc, p, from, to)?)?;
    let both = Formula::And(moved, Boxed::new(alloc, f)?);
    Ok(Formula::Exists(to, Boxed::new(alloc, both)?))
}

/// Over the variable 0: the player to move wins within k moves and one more, by the moves of the predicate at place p.
///
/// There is a move to some tree from where each move of the opponent leads to a tree at which the player wins within k
/// moves.
pub fn winning_formula(alloc: Global, p: usize, k: u64) -> Result<Formula, NoMemory>
    ensures { IfOk result (λ f. form_of f ≡ winning_form p k) }
{
    let lost = not(alloc, Formula::Win(p, k, Term::Var(2)))?;
    let safe = not(alloc, moves_to(alloc, p, 1, 2, lost)?)?;
    let formula = moves_to(alloc, p, 0, 1, safe)?;
    Ok(formula)
}
