//! Atoms as formulas, and formulas that are put together.
ghost use Rattle.std.specs.Prelude.{◌≡◌, ◌≤◌, ◌-◌, List, [], ◌∷◌, ◌++◌, IfOk, Some};
ghost use Rattle.std.specs.List.{range_with_len};
ghost use Rattle.formula_ast.specs.Forms.{Form, form_of, no, and, or, exists};
ghost use Rattle.formula_grammar.specs.Meaning.{behind};
ghost use Rattle.formula_grammar.specs.Written as joint;
ghost use Rattle.explicit_form.specs.Explicit as spec;
ghost use Rattle.explicit_form.specs.Explicit.{atom_form, denied_form};
ghost use Rattle.explicit_form.specs.Joining.{Joins};

use flat_form::{Args, Flat};
use formula_ast::{Formula, Term, Terms};
use lists::NoMemory;
use sqlite_items::Boxed;
use std::alloc::Global;
use tree_model::Symbol;

// The symbol with these variables as arguments.
fn applied(alloc: Global, symbol: Symbol, xs: &Args) -> Result<Term, NoMemory>
    ensures { IfOk result (λ t. t ≡ spec.applied symbol xs.now) }
{
    let mut terms = Terms::new(alloc);
    for &x in xs.as_slice() {
        terms.push(Term::Var(x))?;
    }
    Ok(Term::App(symbol, terms))
}

// The atom.
#[tactic(auto, using(formula_ast::proofs::Ties::form_rules))]
pub(crate) fn atom_formula(alloc: Global, atom: &Flat) -> Result<Formula, NoMemory>
    ensures { IfOk result (λ f. form_of f ≡ atom_form atom.now) }
{
    match atom {
        Flat::VarVar(u, v) => Ok(Formula::Eq(Term::Var(*u), Term::Var(*v))),
        Flat::VarTerm(u, symbol, xs) => Ok(Formula::Eq(
            Term::Var(*u),
            applied(alloc, *symbol, xs)?,
        )),
        Flat::Finite(u) => Ok(Formula::Finite(Term::Var(*u))),
    }
}

// The formula in a box.
fn boxed(alloc: Global, f: Formula) -> Result<Boxed<Formula>, NoMemory>
    ensures { IfOk result (λ b. b ≡ f) }
{
    Ok(Boxed::new(alloc, f)?)
}

// The denied formula.
#[tactic(auto, using(formula_ast::proofs::Ties::form_rules))]
pub(crate) fn negated(alloc: Global, f: Formula) -> Result<Formula, NoMemory>
    ensures { IfOk result (λ g. form_of g ≡ no (form_of f)) }
{
    Ok(Formula::Not(boxed(alloc, f)?))
}

// The denied atom.
#[tactic(auto, using(formula_ast::proofs::Ties::form_rules))]
pub(crate) fn denied_atom(alloc: Global, atom: &Flat) -> Result<Formula, NoMemory>
    ensures { IfOk result (λ f. form_of f ≡ denied_form [] (atom.now ∷ [])) }
{
    match atom {
        Flat::VarVar(u, v) => Ok(Formula::Differ(Term::Var(*u), Term::Var(*v))),
        Flat::VarTerm(u, symbol, xs) => Ok(Formula::Differ(
            Term::Var(*u),
            applied(alloc, *symbol, xs)?,
        )),
        Flat::Finite(u) => negated(alloc, Formula::Finite(Term::Var(*u))),
    }
}

// Both formulas hold.
#[tactic(auto, using(formula_ast::proofs::Ties::form_rules))]
fn both(alloc: Global, f: Formula, g: Formula) -> Result<Formula, NoMemory>
    ensures { IfOk result (λ h. form_of h ≡ and (form_of f) (form_of g)) }
{
    let left = boxed(alloc, f)?;
    Ok(Formula::And(left, boxed(alloc, g)?))
}

// One of the formulas holds.
#[tactic(auto, using(formula_ast::proofs::Ties::form_rules))]
fn either(alloc: Global, f: Formula, g: Formula) -> Result<Formula, NoMemory>
    ensures { IfOk result (λ h. form_of h ≡ or (form_of f) (form_of g)) }
{
    let left = boxed(alloc, f)?;
    Ok(Formula::Or(left, boxed(alloc, g)?))
}

// One more formula of a conjunction, of which so many are joined already.
pub(crate) fn and_also(
    alloc: Global,
    before: Option<Formula>,
    f: Formula,
) -> Result<Formula, NoMemory>
    ensures { IfOk result (λ all. (fs : List Form) → Joins joint.and before fs → Joins joint.and (Some all) (fs ++ form_of f ∷ [])) }
{
    match before {
        Some(g) => both(alloc, g, f),
        None => Ok(f),
    }
}

// One more formula of a disjunction.
pub(crate) fn or_else(
    alloc: Global,
    before: Option<Formula>,
    f: Formula,
) -> Result<Formula, NoMemory>
    ensures { IfOk result (λ all. (fs : List Form) → Joins joint.or before fs → Joins joint.or (Some all) (fs ++ form_of f ∷ [])) }
{
    match before {
        Some(g) => either(alloc, g, f),
        None => Ok(f),
    }
}

// The formula behind quantifiers for the variables from `first` up to `end`.
pub(crate) fn quantified(
    alloc: Global,
    first: usize,
    end: usize,
    f: Formula,
) -> Result<Formula, NoMemory>
    requires { first ≤ end }
    ensures { IfOk result (λ g. form_of g ≡ behind exists (range_with_len first (end - first)) (form_of f)) }
{
    let mut all = f;
    let mut x = end;
    while x > first {
        x -= 1;
        all = quantify(alloc, x, all)?;
    }
    Ok(all)
}

// The formula behind a quantifier.
#[tactic(auto, using(formula_ast::proofs::Ties::form_rules))]
fn quantify(alloc: Global, x: usize, f: Formula) -> Result<Formula, NoMemory>
    ensures { IfOk result (λ g. form_of g ≡ exists x (form_of f)) }
{
    Ok(Formula::Exists(x, boxed(alloc, f)?))
}
