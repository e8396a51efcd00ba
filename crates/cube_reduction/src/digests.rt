//! Numbers of conjunctions, parts and cubes. Equal ones have equal numbers; others may have, which nothing here trusts.
use flat_form::{Basic, Cube, Flat, Part};
use std::default::Default;
use std::hash::{FoldHasher, Hasher};
use tree_model::Symbol;

fn write_symbol(hasher: &mut FoldHasher, symbol: Symbol) {
    match symbol {
        Symbol::Named(place) => hasher.write_usize(place),
        Symbol::Further(index) => hasher.write_u64(!index),
    }
}

fn write_atom(hasher: &mut FoldHasher, atom: &Flat) {
    match atom {
        Flat::VarVar(u, v) => {
            hasher.write_usize(*u);
            hasher.write_usize(*v);
        }
        Flat::VarTerm(u, symbol, xs) => {
            hasher.write_usize(*u);
            write_symbol(hasher, *symbol);
            for &x in xs.as_slice() {
                hasher.write_usize(x);
            }
        }
        Flat::Finite(u) => hasher.write_usize(!*u),
    }
}

fn write_basic(hasher: &mut FoldHasher, basic: &Basic) {
    hasher.write_usize(basic.len());
    for atom in basic.as_slice() {
        write_atom(hasher, atom);
    }
}

fn write_part(hasher: &mut FoldHasher, part: &Part) {
    hasher.write_usize(part.inner);
    write_basic(hasher, &part.basic);
}

/// A number of the conjunction. It takes no memory.
pub(crate) fn digest_basic(basic: &Basic) -> u64 {
    let mut hasher = FoldHasher::default();
    write_basic(&mut hasher, basic);
    hasher.finish()
}

/// A number of the part. It takes no memory.
pub(crate) fn digest_part(part: &Part) -> u64 {
    let mut hasher = FoldHasher::default();
    write_part(&mut hasher, part);
    hasher.finish()
}

/// A number of the cube. It takes no memory.
pub fn digest_cube(cube: &Cube) -> u64 {
    let mut hasher = FoldHasher::default();
    hasher.write_usize(cube.free);
    hasher.write_usize(cube.outer);
    write_basic(&mut hasher, &cube.basic);
    for part in cube.parts.as_slice() {
        write_part(&mut hasher, part);
    }
    hasher.finish()
}
