//! The outer variables of a cube in three lists.
ghost use Rattle.std.specs.Prelude.{ℕ, ◌≡◌, ◌<◌, ◌≤◌, ◌+◌, List, [], ◌∷◌, ◌++◌, length, IfOk, OnOk};
ghost use Rattle.flat_form.specs.Numbering.{AtomOver, BasicOver};
ghost use Rattle.flat_form.specs.declared.atom.Flat.{Flat};
ghost use Rattle.flat_form.specs.Solved.{IsSolved};
ghost use Rattle.flat_form.specs.Steps.{IsSplit};
ghost use Rattle.reachability.specs.Splitting.{AreLeft, AreSorted};

use crate::reaching::reached;
use flat_form::{Basic, Flat};
use lists::{List, NoMemory};
use std::alloc::Global;

/// The outer variables of a cube, in three ascending lists.
#[derive(Debug, Drop)]
pub struct Outers {
    /// Those that the free variables reach.
    pub needed: List<usize>,
    /// Of the others, those left of no equation.
    pub idle: List<usize>,
    /// Of the others, those left of an equation.
    pub determined: List<usize>,
}

// Sets the flag of the variable that is left of the equation.
fn mark_left(flags: &mut Vec<bool>, atom: &Flat)
    requires over { AtomOver (length flags.old.items) atom.now }
    ensures size { length flags.new.items ≡ length flags.old.items }
    ensures left { (atoms : List Flat) → AreLeft atoms flags.old.items → AreLeft (atoms ++ atom.now ∷ []) flags.new.items }
{
    match atom {
        Flat::VarVar(u, _) => flags[*u] = true,
        Flat::VarTerm(u, _, _) => flags[*u] = true,
        Flat::Finite(_) => {}
    }
}

// Flags for so many variables, those set that are left of an equation.
fn left_sides(alloc: Global, count: usize, atoms: &Basic) -> Result<Vec<bool>, NoMemory>
    requires over { BasicOver count atoms.now }
    ensures size { IfOk result (λ flags. length flags.items ≡ count) }
    ensures left { IfOk result (λ flags. AreLeft atoms.now flags.items) }
{
    let mut flags = vec![in alloc; false; count]?;
    for atom in atoms.as_slice() {
        mark_left(&mut flags, atom);
    }
    Ok(flags)
}

// Puts the variable last in its list.
fn sort_in(found: &mut Outers, marks: &[bool], lefts: &[bool], v: usize) -> Result<(), NoMemory>
    requires marks { v < length marks.now }
    requires lefts { v < length lefts.now }
    ensures { OnOk result ((free : ℕ) → free ≤ v → AreSorted free v marks.now lefts.now found.old.needed found.old.idle found.old.determined
        → AreSorted free (v + 1) marks.now lefts.now found.new.needed found.new.idle found.new.determined) }
{
    if marks[v] {
        found.needed.push(v)
    } else if lefts[v] {
        found.determined.push(v)
    } else {
        found.idle.push(v)
    }
}

/// The outer variables of a solved conjunction over `free` variables and `outer` ones besides.
pub fn split(alloc: Global, free: usize, outer: usize, b: &Basic) -> Result<Outers, NoMemory>
    requires solved { IsSolved b.now }
    requires over { BasicOver (free + outer) b.now }
    ensures { IfOk result (λ found. IsSplit free outer b.now found.needed found.idle found.determined) }
{
    let Some(count) = free.checked_add(outer) else {
        return Err(NoMemory);
    };
    let marks = reached(alloc, count, free, b)?;
    let lefts = left_sides(alloc, count, b)?;
    let mut found = Outers {
        needed: List::new(alloc),
        idle: List::new(alloc),
        determined: List::new(alloc),
    };
    for v in free..count {
        sort_in(&mut found, marks.as_slice(), lefts.as_slice(), v)?;
    }
    Ok(found)
}
