//! Raw cubes made of others: joined, opened and denied ones.
ghost use Rattle.std.specs.Prelude.{◌≡◌, ◌≤◌, ◌++◌, map, List, [], ◌∷◌, ◌+◌, IfOk, OnOk};
ghost use Rattle.flat_form.specs.Orders.{renumbered_part};
ghost use Rattle.flat_form.specs.Parts.{renumbered};
ghost use Rattle.flat_form.specs.Raws.{raised, joined, opened, denied};

use flat_form::{Args, Basic, Cube, Cubes, Flat, Part, Parts};
use lists::{Copied, NoMemory};
use std::alloc::Global;

// The sum, where it fits.
fn sum(left: usize, right: usize) -> Result<usize, NoMemory>
    ensures { IfOk result (λ sum. sum ≡ left + right) }
{
    match left.checked_add(right) {
        Some(sum) => Ok(sum),
        None => Err(NoMemory),
    }
}

// Moves the variables from `first` on up by so much.
#[derive(Clone, Copy, Debug, Drop)]
struct Raise {
    first: usize,
    by: usize,
}

impl Raise {
    fn variable(self, v: usize) -> Result<usize, NoMemory>
        ensures { IfOk result (λ w. w ≡ raised self.first self.by v) }
    {
        if v < self.first {
            return Ok(v);
        }
        sum(v, self.by)
    }

    fn arguments(self, alloc: Global, xs: &[usize]) -> Result<Args, NoMemory>
        ensures { IfOk result (λ ys. ys ≡ map (raised self.first self.by) xs.now) }
    {
        let mut ys = Args::new(alloc);
        for &x in xs {
            ys.push(self.variable(x)?)?;
        }
        Ok(ys)
    }

    fn atom(self, alloc: Global, atom: &Flat) -> Result<Flat, NoMemory>
        ensures { IfOk result (λ new. new ≡ renumbered (raised self.first self.by) atom.now) }
    {
        match atom {
            Flat::VarVar(u, v) => Ok(Flat::VarVar(self.variable(*u)?, self.variable(*v)?)),
            Flat::VarTerm(u, symbol, xs) => {
                let left = self.variable(*u)?;
                let ys = self.arguments(alloc, xs.as_slice())?;
                Ok(Flat::VarTerm(left, *symbol, ys))
            }
            Flat::Finite(u) => Ok(Flat::Finite(self.variable(*u)?)),
        }
    }

    // Puts the atoms last.
    fn push_atoms(self, alloc: Global, list: &mut Basic, atoms: &[Flat]) -> Result<(), NoMemory>
        ensures { OnOk result (list.new ≡ list.old ++ map (renumbered (raised self.first self.by)) atoms.now) }
    {
        for atom in atoms {
            list.push(self.atom(alloc, atom)?)?;
        }
        Ok(())
    }

    fn part(self, alloc: Global, part: &Part) -> Result<Part, NoMemory>
        ensures { IfOk result (λ new. new ≡ renumbered_part (raised self.first self.by) 0 part.now) }
    {
        let mut basic = Basic::with_capacity(alloc, part.basic.len())?;
        self.push_atoms(alloc, &mut basic, part.basic.as_slice())?;
        Ok(Part {
            inner: part.inner,
            basic,
        })
    }

    // Puts the parts last.
    fn push_parts(self, alloc: Global, list: &mut Parts, parts: &[Part]) -> Result<(), NoMemory>
        ensures { OnOk result (list.new ≡ list.old ++ map (renumbered_part (raised self.first self.by) 0) parts.now) }
    {
        for part in parts {
            list.push(self.part(alloc, part)?)?;
        }
        Ok(())
    }
}

/// Both cubes at once. The outer variables of the left one come first.
pub(crate) fn join(alloc: Global, left: &Cube, right: &Cube) -> Result<Cube, NoMemory>
    ensures { IfOk result (λ cube. cube ≡ joined left.now right.now) }
{
    let behind_left = Raise {
        first: left.free,
        by: left.outer,
    };
    let behind_right = Raise {
        first: sum(left.free, left.outer)?,
        by: right.outer,
    };
    let outer = sum(left.outer, right.outer)?;
    let mut basic = left.basic.copy(alloc)?;
    behind_left.push_atoms(alloc, &mut basic, right.basic.as_slice())?;
    let mut parts = Parts::with_capacity(alloc, sum(left.parts.len(), right.parts.len())?)?;
    behind_right.push_parts(alloc, &mut parts, left.parts.as_slice())?;
    behind_left.push_parts(alloc, &mut parts, right.parts.as_slice())?;
    Ok(Cube {
        free: left.free,
        outer,
        basic,
        parts,
    })
}

/// The cube with its last so many free variables as outer ones.
pub(crate) fn open(alloc: Global, quantified: usize, cube: &Cube) -> Result<Cube, NoMemory>
    requires within { quantified ≤ cube.now.free }
    ensures { IfOk result (λ new. new ≡ opened quantified cube.now) }
{
    Ok(Cube {
        free: cube.free - quantified,
        outer: sum(quantified, cube.outer)?,
        basic: cube.basic.copy(alloc)?,
        parts: cube.parts.copy(alloc)?,
    })
}

// The cube that says that the basic of this one fails.
fn without_basic(alloc: Global, cube: &Cube) -> Result<Cube, NoMemory>
    ensures { IfOk result (λ new. new ≡ record { free = cube.now.free; outer = 0; basic = []; parts = record { inner = cube.now.outer; basic = cube.now.basic } ∷ [] }) }
{
    let mut parts = Parts::new(alloc);
    parts.push(Part {
        inner: cube.outer,
        basic: cube.basic.copy(alloc)?,
    })?;
    Ok(Cube {
        free: cube.free,
        outer: 0,
        basic: Basic::new(alloc),
        parts,
    })
}

// The cube that says that the part holds beside the basic.
fn with_part(alloc: Global, cube: &Cube, part: &Part) -> Result<Cube, NoMemory>
    ensures { IfOk result (λ new. new ≡ record { free = cube.now.free; outer = cube.now.outer + part.now.inner; basic = cube.now.basic ++ part.now.basic; parts = [] }) }
{
    let mut basic = cube.basic.copy(alloc)?;
    for atom in part.basic.as_slice() {
        basic.push(atom.copy(alloc)?)?;
    }
    Ok(Cube {
        free: cube.free,
        outer: sum(cube.outer, part.inner)?,
        basic,
        parts: Parts::new(alloc),
    })
}

/// The raw cubes of the cube's negation: its basic fails, or a part holds beside it.
pub(crate) fn deny(alloc: Global, cube: &Cube) -> Result<Cubes, NoMemory>
    ensures { IfOk result (λ raws. raws ≡ denied cube.now) }
{
    let mut raws = Cubes::new(alloc);
    raws.push(without_basic(alloc, cube)?)?;
    for part in cube.parts.as_slice() {
        raws.push(with_part(alloc, cube, part)?)?;
    }
    Ok(raws)
}
