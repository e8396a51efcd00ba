//! Terms that are flat.
ghost use Rattle.std.specs.Prelude.{◌≡◌, ◌↔◌, IsTrue, All, Contains, map};
ghost use Rattle.formula_ast.specs.Terms.{list_of};
ghost use Rattle.explicit_form.specs.Pieces as spec;
ghost use Rattle.explicit_form.specs.Pieces.{equation};
ghost use Rattle.explicit_form.specs.Shape.{HaveSameTerm};
ghost use Rattle.explicit_form.specs.Shaped.{IsVariable, IsFlat};

use formula_ast::{Term, Terms};
use tree_model::Symbol;

// The variable that the term is, and 0 for other terms.
pub(crate) fn variable_in(t: &Term) -> usize
    ensures { result ≡ spec.variable_in t.now }
{
    match t {
        Term::Var(v) => *v,
        Term::App(_, _) => 0,
    }
}

// Whether the term is a variable.
pub(crate) fn is_variable(t: &Term) -> bool
    ensures { IsTrue result ↔ IsVariable t.now }
{
    match t {
        Term::Var(_) => true,
        Term::App(_, _) => false,
    }
}

// Whether each of the terms is a variable.
fn are_variables(ts: &Terms) -> bool
    ensures { IsTrue result ↔ All IsVariable (list_of ts.now) }
{
    for t in ts.as_slice() {
        if !is_variable(t) {
            return false;
        }
    }
    true
}

// Whether the term is a variable, or a symbol with variables as arguments.
pub(crate) fn is_flat(t: &Term) -> bool
    ensures { IsTrue result ↔ IsFlat t.now }
{
    match t {
        Term::Var(_) => true,
        Term::App(_, ts) => are_variables(ts),
    }
}

// Whether the variable is one of the terms.
pub(crate) fn is_among(x: usize, ts: &Terms) -> bool
    ensures { IsTrue result ↔ Contains (map spec.variable_in (list_of ts.now)) x }
{
    for t in ts.as_slice() {
        if variable_in(t) == x {
            return true;
        }
    }
    false
}

// Whether the terms are the same variables.
fn are_same(ts: &Terms, us: &Terms) -> bool
    ensures { IsTrue result ↔ (map spec.variable_in (list_of ts.now) ≡ map spec.variable_in (list_of us.now)) }
{
    if ts.len() != us.len() {
        return false;
    }
    for i in 0..ts.len() {
        if variable_in(ts.get(i)) != variable_in(us.get(i)) {
            return false;
        }
    }
    true
}

// Whether the symbols are equal.
fn is_same_symbol(a: Symbol, b: Symbol) -> bool
    ensures { IsTrue result ↔ (a ≡ b) }
{
    a == b
}

// Whether the equations of t and s and of u and r have the same symbol and arguments on the right.
pub(crate) fn have_same_term(t: &Term, s: &Term, u: &Term, r: &Term) -> bool
    ensures { IsTrue result ↔ HaveSameTerm (equation t.now s.now) (equation u.now r.now) }
{
    match s {
        Term::Var(_) => false,
        Term::App(a, ts) => match r {
            Term::Var(_) => false,
            Term::App(b, us) => is_same_symbol(*a, *b) && are_same(ts, us),
        },
    }
}

// Whether the terms are equal, if both are flat.
pub(crate) fn is_same_term(t: &Term, s: &Term) -> bool
    ensures { IsFlat t.now → IsFlat s.now → IsTrue result ↔ (t.now ≡ s.now) }
{
    match t {
        Term::Var(v) => match s {
            Term::Var(u) => *v == *u,
            Term::App(_, _) => false,
        },
        Term::App(a, ts) => match s {
            Term::Var(_) => false,
            Term::App(b, us) => is_same_symbol(*a, *b) && are_same(ts, us),
        },
    }
}
