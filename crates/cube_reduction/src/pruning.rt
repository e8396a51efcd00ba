//! What is kept of the atoms that a part adds.
ghost use Rattle.std.specs.Prelude.{◌≡◌, ◌≤◌, length, IfOk};
ghost use Rattle.std.specs.List.{filter};
ghost use Rattle.flat_form.specs.Numbering.{AtomOver, BasicOver};
ghost use Rattle.flat_form.specs.Parts.{IsPruned};
ghost use Rattle.flat_form.specs.Solved.{Ascends};
ghost use Rattle.cube_reduction.specs.Keeping.{is_kept_by};

use flat_form::{Basic, Flat};
use lists::{Copied, NoMemory};
use reachability::reached;
use std::alloc::Global;

// Whether the atom stays in a part over the first m variables, which reach the marked ones.
fn is_kept(m: usize, marks: &[bool], atom: &Flat) -> bool
    requires { AtomOver (length marks.now) atom.now }
    ensures { result ≡ is_kept_by m marks.now atom.now }
{
    match atom {
        Flat::VarVar(u, _) => *u < m,
        Flat::VarTerm(u, _, _) => marks[*u],
        Flat::Finite(u) => marks[*u],
    }
}

// Those of the atoms that stay.
fn kept(alloc: Global, m: usize, marks: &[bool], atoms: &[Flat]) -> Result<Basic, NoMemory>
    requires { BasicOver (length marks.now) atoms.now }
    ensures { IfOk result (λ kept. kept ≡ filter (is_kept_by m marks.now) atoms.now) }
{
    let mut kept = Basic::with_capacity(alloc, atoms.len())?;
    for atom in atoms {
        if is_kept(m, marks, atom) {
            kept.push(atom.copy(alloc)?)?;
        }
    }
    Ok(kept)
}

// The variable equations of the first m variables, and the atoms of the variables that these reach.
pub(crate) fn pruned(
    alloc: Global,
    m: usize,
    count: usize,
    added: &Basic,
) -> Result<Basic, NoMemory>
    requires within { m ≤ count }
    requires over { BasicOver count added.now }
    requires ascending { Ascends added.now }
    ensures { IfOk result (IsPruned m added.now) }
{
    let marks = reached(alloc, count, m, added)?;
    kept(alloc, m, marks.as_slice(), added.as_slice())
}
