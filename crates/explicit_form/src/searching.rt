//! What stands among the atoms of a conjunction.
ghost use Rattle.std.specs.Prelude.{◌≡◌, ◌↔◌, ◌++◌, IsTrue, Contains};
ghost use Rattle.formula_ast.specs.Forms.{form_of};
ghost use Rattle.flat_form.specs.declared.atom.Flat.TheVariants.{Finite};
ghost use Rattle.flat_form.specs.Solved.{variable_of};
ghost use Rattle.explicit_form.specs.Pieces.{basic_of, bound_of, equation};
ghost use Rattle.explicit_form.specs.Shape.{SomeAtom, IsLeftOf, HaveSameTerm, Meets};

use crate::scopes::is_smaller;
use crate::terms::{have_same_term, is_among, variable_in};
use formula_ast::{Formula, Term};

// Whether an atom is one of the variable.
pub(crate) fn has_variable(f: &Formula, v: usize) -> bool
    ensures { IsTrue result ↔ SomeAtom (λ atom. variable_of atom ≡ v) (basic_of (form_of f.now)) }
{
    match f {
        Formula::And(g, h) => has_variable(g.get(), v) || has_variable(h.get(), v),
        Formula::Exists(_, g) => has_variable(g.get(), v),
        Formula::Eq(t, _) => variable_in(t) == v,
        Formula::Finite(t) => variable_in(t) == v,
        _ => false,
    }
}

// Whether the variable is left of an equation.
pub(crate) fn has_left(f: &Formula, v: usize) -> bool
    ensures { IsTrue result ↔ SomeAtom (IsLeftOf v) (basic_of (form_of f.now)) }
{
    match f {
        Formula::And(g, h) => has_left(g.get(), v) || has_left(h.get(), v),
        Formula::Exists(_, g) => has_left(g.get(), v),
        Formula::Eq(t, _) => variable_in(t) == v,
        Formula::Finite(_) => false,
        _ => false,
    }
}

// Whether the variable is said to be finite.
pub(crate) fn has_mark(f: &Formula, v: usize) -> bool
    ensures { IsTrue result ↔ Contains (basic_of (form_of f.now)) (Finite v) }
{
    match f {
        Formula::And(g, h) => has_mark(g.get(), v) || has_mark(h.get(), v),
        Formula::Exists(_, g) => has_mark(g.get(), v),
        Formula::Eq(_, _) => false,
        Formula::Finite(t) => variable_in(t) == v,
        _ => false,
    }
}

// Whether an equation has the same symbol and arguments as that of the two terms.
pub(crate) fn has_term(f: &Formula, t: &Term, s: &Term) -> bool
    ensures { IsTrue result ↔ SomeAtom (HaveSameTerm (equation t.now s.now)) (basic_of (form_of f.now)) }
{
    match f {
        Formula::And(g, h) => has_term(g.get(), t, s) || has_term(h.get(), t, s),
        Formula::Exists(_, g) => has_term(g.get(), t, s),
        Formula::Eq(u, r) => have_same_term(t, s, u, r),
        Formula::Finite(_) => false,
        _ => false,
    }
}

// Whether the variable is an argument of the equation of the two terms, whose left side has a smaller rank.
fn equation_meets(
    free: usize,
    outer: &Formula,
    inner: &Formula,
    t: &Term,
    s: &Term,
    x: usize,
) -> bool
    ensures { IsTrue result ↔ Meets free (bound_of (form_of outer.now) ++ bound_of (form_of inner.now)) x (equation t.now s.now) }
{
    match s {
        Term::Var(_) => false,
        Term::App(_, ts) => is_among(x, ts) && is_smaller(free, outer, inner, variable_in(t), x),
    }
}

// Whether the variable is such an argument of one of the equations of f.
pub(crate) fn is_met(free: usize, outer: &Formula, inner: &Formula, x: usize, f: &Formula) -> bool
    ensures { IsTrue result ↔ SomeAtom (Meets free (bound_of (form_of outer.now) ++ bound_of (form_of inner.now)) x) (basic_of (form_of f.now)) }
{
    match f {
        Formula::And(g, h) => {
            is_met(free, outer, inner, x, g.get()) || is_met(free, outer, inner, x, h.get())
        }
        Formula::Exists(_, g) => is_met(free, outer, inner, x, g.get()),
        Formula::Eq(t, s) => equation_meets(free, outer, inner, t, s, x),
        Formula::Finite(_) => false,
        _ => false,
    }
}
