//! Where a variable stands.
ghost use Rattle.std.specs.Prelude.{◌≡◌, IsTrue, ◌↔◌, Contains};
ghost use Rattle.flat_form.specs.Parts.{variables_of};
ghost use Rattle.flat_form.specs.Steps.{Mentions};

use flat_form::{Flat, Part};

// Whether the variable is one of these.
fn is_among(xs: &[usize], v: usize) -> bool
    ensures { IsTrue result ↔ Contains xs.now v }
{
    for &x in xs {
        if x == v {
            return true;
        }
    }
    false
}

// Whether the variable stands in the atom.
fn stands_in(atom: &Flat, v: usize) -> bool
    ensures { IsTrue result ↔ Contains (variables_of atom.now) v }
{
    match atom {
        Flat::VarVar(u, r) => *u == v || *r == v,
        Flat::VarTerm(u, _, xs) => *u == v || is_among(xs.as_slice(), v),
        Flat::Finite(u) => *u == v,
    }
}

/// Whether the variable stands in the part's basic. It takes no memory.
pub fn mentions(p: &Part, v: usize) -> bool
    ensures { IsTrue result ↔ Mentions p.now v }
{
    for atom in p.basic.as_slice() {
        if stands_in(atom, v) {
            return true;
        }
    }
    false
}
