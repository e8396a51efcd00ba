//! Whether the atoms behind quantifiers are as they may be in an explicit cube.
ghost use Rattle.std.specs.Prelude.{◌≡◌, ◌↔◌, ◌≤◌, ◌++◌, ◌⊎◌, [], IsTrue, All, Contains, map};
ghost use Rattle.lists.specs.Distinct.{IsDistinct};
ghost use Rattle.formula_ast.specs.Forms.{form_of};
ghost use Rattle.formula_ast.specs.Terms.{list_of};
ghost use Rattle.flat_form.specs.declared.atom.Flat.TheVariants.{VarVar, Finite};
ghost use Rattle.flat_form.specs.Solved.{variable_of};
ghost use Rattle.explicit_form.specs.Explicit.{Denied};
ghost use Rattle.explicit_form.specs.Pieces as spec;
ghost use Rattle.explicit_form.specs.Pieces.{Fits, basic_of, bound_of, parts_of, equation};
ghost use Rattle.explicit_form.specs.Shape.{InScope, IsSmaller, SomeAtom, IsLeftOf, HaveSameTerm, Meets, IsPlaced, AreApart, AllApart, IsBlock, IsExplicitCube};

use crate::scopes::{are_new, binds, is_in_scope, is_smaller};
use crate::searching::{has_left, has_mark, has_term, has_variable, is_met};
use crate::shaped::is_shaped;
use crate::terms::variable_in;
use formula_ast::{Formula, Term, Terms};

// Whether the terms are variables in scope.
fn are_in_scope(free: usize, outer: &Formula, inner: &Formula, ts: &Terms) -> bool
    ensures { IsTrue result ↔ All (InScope free (bound_of (form_of outer.now) ++ bound_of (form_of inner.now))) (map spec.variable_in (list_of ts.now)) }
{
    for t in ts.as_slice() {
        if !is_in_scope(free, outer, inner, variable_in(t)) {
            return false;
        }
    }
    true
}

// Whether the rank of v is smaller than that of u, or v is left of an equation of the base.
fn may_be_right(free: usize, outer: &Formula, inner: &Formula, v: usize, u: usize) -> bool
    ensures { IsTrue result ↔ (IsSmaller free (bound_of (form_of outer.now) ++ bound_of (form_of inner.now)) v u ⊎ SomeAtom (IsLeftOf v) (basic_of (form_of outer.now))) }
{
    is_smaller(free, outer, inner, v, u) || has_left(outer, v)
}

// Whether both variables are in scope.
fn are_both_in_scope(free: usize, outer: &Formula, inner: &Formula, u: usize, v: usize) -> bool
    ensures { IsTrue result ↔ (InScope free (bound_of (form_of outer.now) ++ bound_of (form_of inner.now)) u
        × InScope free (bound_of (form_of outer.now) ++ bound_of (form_of inner.now)) v) }
{
    is_in_scope(free, outer, inner, u) && is_in_scope(free, outer, inner, v)
}

// Whether v may be right and u left of an equation.
fn are_ordered(free: usize, outer: &Formula, inner: &Formula, u: usize, v: usize) -> bool
    ensures { IsTrue result ↔ ((IsSmaller free (bound_of (form_of outer.now) ++ bound_of (form_of inner.now)) v u ⊎ SomeAtom (IsLeftOf v) (basic_of (form_of outer.now)))
        × (¬ Contains (bound_of (form_of inner.now)) u)) }
{
    may_be_right(free, outer, inner, v, u) && !binds(inner, u)
}

// Whether an equation of variables is placed well in a block.
fn is_pair_placed(free: usize, outer: &Formula, inner: &Formula, u: usize, v: usize) -> bool
    ensures { IsTrue result ↔ IsPlaced free (basic_of (form_of outer.now)) (bound_of (form_of outer.now) ++ bound_of (form_of inner.now)) (bound_of (form_of inner.now)) (VarVar u v) }
{
    are_both_in_scope(free, outer, inner, u, v) && are_ordered(free, outer, inner, u, v)
}

// Whether an equation of variables may stand in a block.
fn pair_fits(free: usize, outer: &Formula, inner: &Formula, u: usize, v: usize) -> bool
    ensures { IsTrue result ↔ Fits free (form_of outer.now) (form_of inner.now) (VarVar u v) }
{
    is_pair_placed(free, outer, inner, u, v) && !has_left(outer, u)
}

// Whether the variable and the terms, which are variables, are in scope.
fn is_term_placed(free: usize, outer: &Formula, inner: &Formula, u: usize, ts: &Terms) -> bool
    ensures { IsTrue result ↔ (InScope free (bound_of (form_of outer.now) ++ bound_of (form_of inner.now)) u
        × All (InScope free (bound_of (form_of outer.now) ++ bound_of (form_of inner.now))) (map spec.variable_in (list_of ts.now))) }
{
    is_in_scope(free, outer, inner, u) && are_in_scope(free, outer, inner, ts)
}

// Whether u is left of no equation of the base, and the term of the equation of t and s is none there.
fn is_term_new(outer: &Formula, u: usize, t: &Term, s: &Term) -> bool
    ensures { IsTrue result ↔ ((¬ SomeAtom (IsLeftOf u) (basic_of (form_of outer.now))) × (¬ SomeAtom (HaveSameTerm (equation t.now s.now)) (basic_of (form_of outer.now)))) }
{
    !has_left(outer, u) && !has_term(outer, t, s)
}

// Whether the equation of the two terms may stand in a block.
fn equation_fits(free: usize, outer: &Formula, inner: &Formula, t: &Term, s: &Term) -> bool
    ensures { IsTrue result ↔ Fits free (form_of outer.now) (form_of inner.now) (equation t.now s.now) }
{
    let u = variable_in(t);
    match s {
        Term::Var(v) => pair_fits(free, outer, inner, u, *v),
        Term::App(_, ts) => {
            is_term_placed(free, outer, inner, u, ts) && is_term_new(outer, u, t, s)
        }
    }
}

// Whether the atom that says that the variable is finite may stand in a block.
fn mark_fits(free: usize, outer: &Formula, inner: &Formula, u: usize) -> bool
    ensures { IsTrue result ↔ Fits free (form_of outer.now) (form_of inner.now) (Finite u) }
{
    is_in_scope(free, outer, inner, u) && !has_mark(outer, u)
}

// Whether each atom of f may stand in a block.
fn atoms_fit(free: usize, outer: &Formula, inner: &Formula, f: &Formula) -> bool
    ensures { IsTrue result ↔ All (Fits free (form_of outer.now) (form_of inner.now)) (basic_of (form_of f.now)) }
{
    match f {
        Formula::And(g, h) => {
            atoms_fit(free, outer, inner, g.get()) && atoms_fit(free, outer, inner, h.get())
        }
        Formula::Exists(_, g) => atoms_fit(free, outer, inner, g.get()),
        Formula::Eq(t, s) => equation_fits(free, outer, inner, t, s),
        Formula::Finite(t) => mark_fits(free, outer, inner, variable_in(t)),
        _ => true,
    }
}

// Whether no atom is of the variable, and none has the term of the equation of t and s.
fn is_apart(g: &Formula, u: usize, t: &Term, s: &Term) -> bool
    ensures { IsTrue result ↔ ((¬ SomeAtom (λ other. variable_of other ≡ u) (basic_of (form_of g.now))) × (¬ SomeAtom (HaveSameTerm (equation t.now s.now)) (basic_of (form_of g.now)))) }
{
    !has_variable(g, u) && !has_term(g, t, s)
}

// Whether no atom is of the variable.
fn lacks_variable(g: &Formula, u: usize) -> bool
    ensures { IsTrue result ↔ (¬ SomeAtom (λ other. variable_of other ≡ u) (basic_of (form_of g.now))) }
{
    !has_variable(g, u)
}

// Whether each atom of f is apart from each of g.
fn are_apart(f: &Formula, g: &Formula) -> bool
    ensures { IsTrue result ↔ All (λ atom. All (AreApart atom) (basic_of (form_of g.now))) (basic_of (form_of f.now)) }
{
    match f {
        Formula::And(h, k) => are_apart(h.get(), g) && are_apart(k.get(), g),
        Formula::Exists(_, h) => are_apart(h.get(), g),
        Formula::Eq(t, s) => is_apart(g, variable_in(t), t, s),
        Formula::Finite(t) => lacks_variable(g, variable_in(t)),
        _ => true,
    }
}

// Whether each two atoms are apart.
fn all_apart(f: &Formula) -> bool
    ensures { IsTrue result ↔ AllApart (basic_of (form_of f.now)) }
{
    match f {
        Formula::And(g, h) => {
            if are_apart(g.get(), h.get()) {
                all_apart(g.get()) && all_apart(h.get())
            } else {
                false
            }
        }
        Formula::Exists(_, g) => all_apart(g.get()),
        Formula::Eq(_, _) => true,
        Formula::Finite(_) => true,
        _ => true,
    }
}

// Whether each variable that f binds is met in the atoms of the block.
fn all_met(free: usize, outer: &Formula, inner: &Formula, f: &Formula) -> bool
    ensures { IsTrue result ↔ All (λ x. SomeAtom (Meets free (bound_of (form_of outer.now) ++ bound_of (form_of inner.now)) x) (basic_of (form_of inner.now)))
        (bound_of (form_of f.now)) }
{
    match f {
        Formula::Exists(x, g) => {
            is_met(free, outer, inner, *x, inner) && all_met(free, outer, inner, g.get())
        }
        _ => true,
    }
}

// Whether the bound variables are new, and each is met.
fn are_names_good(free: usize, outer: &Formula, inner: &Formula) -> bool
    ensures { IsTrue result ↔ ((IsDistinct (bound_of (form_of inner.now)) × All (λ x. (free ≤ x) × (¬ Contains (bound_of (form_of outer.now)) x)) (bound_of (form_of inner.now)))
        × All (λ x. SomeAtom (Meets free (bound_of (form_of outer.now) ++ bound_of (form_of inner.now)) x) (basic_of (form_of inner.now))) (bound_of (form_of inner.now))) }
{
    are_new(free, outer, inner) && all_met(free, outer, inner, inner)
}

// Whether each atom may stand in the block, and each two are apart.
fn are_atoms_good(free: usize, outer: &Formula, inner: &Formula) -> bool
    ensures { IsTrue result ↔ (All (Fits free (form_of outer.now) (form_of inner.now)) (basic_of (form_of inner.now)) × AllApart (basic_of (form_of inner.now))) }
{
    atoms_fit(free, outer, inner, inner) && all_apart(inner)
}

// Whether the atoms of the inner formula are a block over those of the outer one.
fn is_block(free: usize, outer: &Formula, inner: &Formula) -> bool
    ensures { IsTrue result ↔ IsBlock free (basic_of (form_of outer.now)) (bound_of (form_of outer.now)) (bound_of (form_of inner.now)) (basic_of (form_of inner.now)) }
{
    are_names_good(free, outer, inner) && are_atoms_good(free, outer, inner)
}

// Whether each part of f is a block over the cube's atoms.
fn parts_fit(free: usize, cube: &Formula, f: &Formula) -> bool
    ensures { IsTrue result ↔ All (λ part. IsBlock free (basic_of (form_of cube.now)) (bound_of (form_of cube.now)) part.bound part.basic) (parts_of (form_of f.now)) }
{
    match f {
        Formula::And(g, h) => parts_fit(free, cube, g.get()) && parts_fit(free, cube, h.get()),
        Formula::Exists(_, g) => parts_fit(free, cube, g.get()),
        Formula::Differ(t, s) => equation_fits(free, cube, f, t, s),
        Formula::Not(g) => is_block(free, cube, g.get()),
        _ => true,
    }
}

// Whether the atoms of the formula are a block over nothing.
fn is_block_alone(f: &Formula, free: usize) -> bool
    ensures { IsTrue result ↔ IsBlock free [] [] (bound_of (form_of f.now)) (basic_of (form_of f.now)) }
{
    let nothing = Formula::True;
    is_block(free, &nothing, f)
}

// Whether the atoms and parts of the formula are blocks.
fn are_blocks(f: &Formula, free: usize) -> bool
    ensures { IsTrue result ↔ (IsBlock free [] [] (bound_of (form_of f.now)) (basic_of (form_of f.now))
        × All (λ part. IsBlock free (basic_of (form_of f.now)) (bound_of (form_of f.now)) part.bound part.basic) (parts_of (form_of f.now))) }
{
    is_block_alone(f, free) && parts_fit(free, f, f)
}

// Whether it is an explicit cube.
pub(crate) fn is_cube(f: &Formula, free: usize) -> bool
    ensures { IsTrue result ↔ IsExplicitCube free (form_of f.now) }
{
    is_shaped(f) && are_blocks(f, free)
}
