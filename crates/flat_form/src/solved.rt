ghost use Rattle.std.specs.Prelude.{◌≡◌, IsTrue, ◌↔◌, All};
ghost use Rattle.flat_form.specs.Beside.{SaysEqual, GoesWith};
ghost use Rattle.flat_form.specs.Solved.{variable_of, Ascends, IsSolved};

use crate::{Args, Basic, Flat};

/// The variable that an atom stands for: its left side, or the one that is finite.
pub fn variable(atom: &Flat) -> usize
    ensures { result ≡ variable_of atom.now }
{
    match atom {
        Flat::VarVar(u, _) => *u,
        Flat::VarTerm(u, _, _) => *u,
        Flat::Finite(u) => *u,
    }
}

// Whether each atom's variable is greater than all before it.
fn ascends(b: &Basic) -> bool
    ensures { IsTrue result ↔ Ascends b.now }
{
    for i in 1..b.len() {
        if variable(b.get(i)) <= variable(b.get(i - 1)) {
            return false;
        }
    }
    true
}

// Whether the lists are one.
fn are_same(xs: &Args, ys: &Args) -> bool
    ensures { IsTrue result ↔ (xs.now ≡ ys.now) }
{
    xs.as_slice() == ys.as_slice()
}

// Whether the variable is none of the arguments.
fn is_none_of(v: usize, xs: &Args) -> bool
    ensures { IsTrue result ↔ All (λ x. ¬ (x ≡ v)) xs.now }
{
    for &x in xs.as_slice() {
        if x == v {
            return false;
        }
    }
    true
}

// Whether the atom says that the variable equals another.
fn says_equal(v: usize, atom: &Flat) -> bool
    ensures { IsTrue result ↔ SaysEqual v atom.now }
{
    match atom {
        Flat::VarVar(u, _) => *u == v,
        Flat::VarTerm(_, _, _) => false,
        Flat::Finite(_) => false,
    }
}

// Whether the two atoms may stand in one solved conjunction, whatever their order.
fn goes_with(a: &Flat, b: &Flat) -> bool
    ensures { IsTrue result ↔ GoesWith a.now b.now }
{
    match a {
        Flat::VarVar(u, r) => *r < *u && !says_equal(*r, b),
        Flat::VarTerm(u, symbol, xs) => match b {
            Flat::VarVar(v, _) => is_none_of(*v, xs),
            Flat::VarTerm(v, other, ys) => *symbol != *other || *u == *v || !are_same(xs, ys),
            Flat::Finite(_) => true,
        },
        Flat::Finite(_) => true,
    }
}

// Whether the atom goes with each atom of the list.
fn goes_with_all(atom: &Flat, b: &[Flat]) -> bool
    ensures { IsTrue result ↔ All (GoesWith atom.now) b.now }
{
    for other in b {
        if !goes_with(atom, other) {
            return false;
        }
    }
    true
}

// Whether each atom goes with each.
fn all_go_together(b: &[Flat]) -> bool
    ensures { IsTrue result ↔ All (λ atom. All (GoesWith atom) b.now) b.now }
{
    for atom in b {
        if !goes_with_all(atom, b) {
            return false;
        }
    }
    true
}

/// Whether the list has the shape of a solved conjunction: atoms in ascending order of their variables, one for each;
/// smaller variables on the right of equations of variables; neither these nor arguments left of such an equation; and
/// no two equations with the same term. It takes no memory.
pub fn is_solved(b: &Basic) -> bool
    ensures { IsTrue result ↔ IsSolved b.now }
{
    ascends(b) && all_go_together(b.as_slice())
}
