//! Whether a formula is explicit.
ghost use Rattle.std.specs.Prelude.{◌≡◌, ◌↔◌, IsTrue, All, Contains};
ghost use Rattle.lists.specs.Distinct.{IsDistinct};
ghost use Rattle.formula_ast.specs.Forms.{form_of};
ghost use Rattle.explicit_form.specs.Pieces.{disjuncts_of};
ghost use Rattle.explicit_form.specs.Shape.{IsExplicit, IsExplicitCube};
ghost use Rattle.explicit_form.specs.Shaped.{IsSimple};

use crate::blocks::is_cube;
use crate::same::is_same;
use formula_ast::{Formula, Statement};

// Whether each disjunct is an explicit cube.
fn are_cubes(f: &Formula, free: usize) -> bool
    ensures { IsTrue result ↔ All (IsExplicitCube free) (disjuncts_of (form_of f.now)) }
{
    match f {
        Formula::Or(g, h) => are_cubes(g.get(), free) && is_cube(h.get(), free),
        _ => is_cube(f, free),
    }
}

// Whether the second formula is a disjunct of the first, if all are simple.
fn is_disjunct(f: &Formula, g: &Formula) -> bool
    ensures { All IsSimple (disjuncts_of (form_of f.now)) → IsSimple (form_of g.now) → IsTrue result ↔ Contains (disjuncts_of (form_of f.now)) (form_of g.now) }
{
    match f {
        Formula::Or(h, k) => is_disjunct(h.get(), g) || is_same(k.get(), g),
        _ => is_same(f, g),
    }
}

// Whether the disjuncts are distinct, if all are simple.
fn are_distinct(f: &Formula) -> bool
    ensures { All IsSimple (disjuncts_of (form_of f.now)) → IsTrue result ↔ IsDistinct (disjuncts_of (form_of f.now)) }
{
    match f {
        Formula::Or(g, h) => are_distinct(g.get()) && !is_disjunct(g.get(), h.get()),
        _ => true,
    }
}

/// Whether the statement is an explicit solved formula whose first variables, `free` in number, are its free ones. It
/// takes no memory.
pub fn is_explicit(s: &Statement, free: usize) -> bool
    ensures { IsTrue result ↔ IsExplicit free (form_of s.now.body) }
{
    are_cubes(&s.body, free) && are_distinct(&s.body)
}
