//! The variables that the quantifiers in front of formulas bind: which they are, and in which order they come.
ghost use Rattle.std.specs.Prelude.{◌≡◌, ◌↔◌, ◌<◌, ◌≤◌, ◌++◌, IsTrue, All, Contains};
ghost use Rattle.lists.specs.Distinct.{IsDistinct};
ghost use Rattle.formula_ast.specs.Forms.{form_of};
ghost use Rattle.flat_form.specs.Orders.{place_of};
ghost use Rattle.explicit_form.specs.Pieces.{bound_of, first_met};
ghost use Rattle.explicit_form.specs.Shape.{InScope, IsSmaller};

use formula_ast::Formula;

// Whether a quantifier in front binds the variable.
pub(crate) fn binds(f: &Formula, x: usize) -> bool
    ensures { IsTrue result ↔ Contains (bound_of (form_of f.now)) x }
{
    match f {
        Formula::Exists(y, g) => *y == x || binds(g.get(), x),
        _ => false,
    }
}

// Whether one of the formulas binds the variable in front.
fn is_bound(outer: &Formula, inner: &Formula, v: usize) -> bool
    ensures { IsTrue result ↔ Contains (bound_of (form_of outer.now) ++ bound_of (form_of inner.now)) v }
{
    binds(outer, v) || binds(inner, v)
}

// Whether the variable is free or bound in front of one of the formulas.
pub(crate) fn is_in_scope(free: usize, outer: &Formula, inner: &Formula, v: usize) -> bool
    ensures { IsTrue result ↔ InScope free (bound_of (form_of outer.now) ++ bound_of (form_of inner.now)) v }
{
    if v < free {
        true
    } else {
        is_bound(outer, inner, v)
    }
}

// Of two variables, whether the first is the first of both that is bound, if one is.
fn meets_first(f: &Formula, v: usize, u: usize) -> Option<bool>
    ensures { result ≡ first_met (bound_of (form_of f.now)) v u }
{
    match f {
        Formula::Exists(x, g) => {
            if *x == u {
                Some(false)
            } else if *x == v {
                Some(true)
            } else {
                meets_first(g.get(), v, u)
            }
        }
        _ => None,
    }
}

// Whether v is bound before u.
fn is_earlier(outer: &Formula, inner: &Formula, v: usize, u: usize) -> bool
    ensures { IsTrue result ↔ (place_of (bound_of (form_of outer.now) ++ bound_of (form_of inner.now)) v
        < place_of (bound_of (form_of outer.now) ++ bound_of (form_of inner.now)) u) }
{
    match meets_first(outer, v, u) {
        Some(first) => first,
        None => match meets_first(inner, v, u) {
            Some(first) => first,
            None => false,
        },
    }
}

// Whether the rank of v is smaller than that of u.
pub(crate) fn is_smaller(free: usize, outer: &Formula, inner: &Formula, v: usize, u: usize) -> bool
    ensures { IsTrue result ↔ IsSmaller free (bound_of (form_of outer.now) ++ bound_of (form_of inner.now)) v u }
{
    if v < free {
        if u < free { v < u } else { true }
    } else if u < free {
        false
    } else {
        is_earlier(outer, inner, v, u)
    }
}

// Whether the variable is not free, and not bound outside.
fn is_new_name(free: usize, outer: &Formula, x: usize) -> bool
    ensures { IsTrue result ↔ ((free ≤ x) × (¬ Contains (bound_of (form_of outer.now)) x)) }
{
    free <= x && !binds(outer, x)
}

// And none of those that the inner formula binds.
fn is_first(free: usize, outer: &Formula, inner: &Formula, x: usize) -> bool
    ensures { IsTrue result ↔ (((free ≤ x) × (¬ Contains (bound_of (form_of outer.now)) x)) × (¬ Contains (bound_of (form_of inner.now)) x)) }
{
    is_new_name(free, outer, x) && !binds(inner, x)
}

// Whether the bound variables are distinct, and none is free or bound outside.
pub(crate) fn are_new(free: usize, outer: &Formula, inner: &Formula) -> bool
    ensures { IsTrue result ↔ (IsDistinct (bound_of (form_of inner.now))
        × All (λ x. (free ≤ x) × (¬ Contains (bound_of (form_of outer.now)) x)) (bound_of (form_of inner.now))) }
{
    match inner {
        Formula::Exists(x, g) => {
            is_first(free, outer, g.get(), *x) && are_new(free, outer, g.get())
        }
        _ => true,
    }
}
