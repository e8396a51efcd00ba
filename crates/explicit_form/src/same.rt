//! Whether formulas of the kinds that stand in explicit cubes are equal.
ghost use Rattle.std.specs.Prelude.{◌≡◌, ◌↔◌, IsTrue};
ghost use Rattle.formula_ast.specs.Forms.{form_of};
ghost use Rattle.explicit_form.specs.Shaped.{IsSimple};

use crate::terms::is_same_term;
use formula_ast::Formula;

// Whether the formulas are equal, if both are simple.
pub(crate) fn is_same(f: &Formula, g: &Formula) -> bool
    ensures { IsSimple (form_of f.now) → IsSimple (form_of g.now) → IsTrue result ↔ (form_of f.now ≡ form_of g.now) }
{
    match f {
        Formula::And(h, k) => match g {
            Formula::And(l, m) => is_same(h.get(), l.get()) && is_same(k.get(), m.get()),
            _ => false,
        },
        Formula::Exists(x, h) => match g {
            Formula::Exists(y, k) => *x == *y && is_same(h.get(), k.get()),
            _ => false,
        },
        Formula::Not(h) => match g {
            Formula::Not(k) => is_same(h.get(), k.get()),
            _ => false,
        },
        Formula::Eq(t, s) => match g {
            Formula::Eq(u, r) => is_same_term(t, u) && is_same_term(s, r),
            _ => false,
        },
        Formula::Differ(t, s) => match g {
            Formula::Differ(u, r) => is_same_term(t, u) && is_same_term(s, r),
            _ => false,
        },
        Formula::Finite(t) => match g {
            Formula::Finite(u) => is_same_term(t, u),
            _ => false,
        },
        _ => false,
    }
}
