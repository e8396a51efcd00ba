//! Whether atoms, conjunctions, parts and cubes are equal.
ghost use Rattle.std.specs.Prelude.{◌≡◌, IsTrue, ◌↔◌};

use crate::{Basic, Cube, Flat, Part, Parts};

/// Whether the atoms are equal. It takes no memory.
pub fn is_same_atom(a: &Flat, b: &Flat) -> bool
    ensures { IsTrue result ↔ (a.now ≡ b.now) }
{
    match a {
        Flat::VarVar(u, v) => match b {
            Flat::VarVar(x, y) => *u == *x && *v == *y,
            Flat::VarTerm(_, _, _) => false,
            Flat::Finite(_) => false,
        },
        Flat::VarTerm(u, symbol, xs) => match b {
            Flat::VarVar(_, _) => false,
            Flat::VarTerm(v, other, ys) => {
                *u == *v && *symbol == *other && xs.as_slice() == ys.as_slice()
            }
            Flat::Finite(_) => false,
        },
        Flat::Finite(u) => match b {
            Flat::VarVar(_, _) => false,
            Flat::VarTerm(_, _, _) => false,
            Flat::Finite(v) => *u == *v,
        },
    }
}

/// Whether the conjunctions are equal, atom by atom. It takes no memory.
pub fn is_same_basic(a: &Basic, b: &Basic) -> bool
    ensures { IsTrue result ↔ (a.now ≡ b.now) }
{
    if a.len() != b.len() {
        return false;
    }
    for i in 0..a.len() {
        if !is_same_atom(a.get(i), b.get(i)) {
            return false;
        }
    }
    true
}

/// Whether the parts are equal. It takes no memory.
pub fn is_same_part(a: &Part, b: &Part) -> bool
    ensures { IsTrue result ↔ (a.now ≡ b.now) }
{
    a.inner == b.inner && is_same_basic(&a.basic, &b.basic)
}

// Whether the lists are equal, part by part.
fn are_same_parts(a: &Parts, b: &Parts) -> bool
    ensures { IsTrue result ↔ (a.now ≡ b.now) }
{
    if a.len() != b.len() {
        return false;
    }
    for i in 0..a.len() {
        if !is_same_part(a.get(i), b.get(i)) {
            return false;
        }
    }
    true
}

/// Whether the cubes are equal. It takes no memory.
pub fn is_same_cube(a: &Cube, b: &Cube) -> bool
    ensures { IsTrue result ↔ (a.now ≡ b.now) }
{
    a.free == b.free
        && a.outer == b.outer
        && is_same_basic(&a.basic, &b.basic)
        && are_same_parts(&a.parts, &b.parts)
}
