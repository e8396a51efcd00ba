//! Cubes as formulas.
ghost use Rattle.std.specs.Prelude.{◌≡◌, ◌++◌, ◌+◌, List, [], map, IfOk};
ghost use Rattle.formula_ast.specs.Forms.{Form, form_of};
ghost use Rattle.formula_printer.specs.Bound.{conjunction, disjunction};
ghost use Rattle.formula_grammar.specs.Written as joint;
ghost use Rattle.explicit_form.specs.Explicit.{atom_form, denied, denied_part, cube_form, explicit_of};
ghost use Rattle.explicit_form.specs.Joining.{Joins};

use crate::atoms::{and_also, atom_formula, denied_atom, negated, or_else, quantified};
use flat_form::{Basic, Cube, Cubes, Part, Parts};
use formula_ast::Formula;
use lists::NoMemory;
use std::alloc::Global;

// The atoms, if there are any.
fn atoms_joined(alloc: Global, basic: &Basic) -> Result<Option<Formula>, NoMemory>
    ensures { IfOk result (λ all. Joins joint.and all (map atom_form basic.now)) }
{
    let mut all = None;
    for atom in basic.as_slice() {
        let f = atom_formula(alloc, atom)?;
        all = Some(and_also(alloc, all, f)?);
    }
    Ok(all)
}

// The conjunction of what is joined.
fn conjunction_of(all: Option<Formula>) -> Formula
    ensures { (fs : List Form) → Joins joint.and all fs → form_of result ≡ conjunction fs }
{
    match all {
        Some(f) => f,
        None => Formula::True,
    }
}

// The part of a cube whose free and outer variables are below m.
fn part_formula(alloc: Global, m: usize, part: &Part) -> Result<Formula, NoMemory>
    ensures { IfOk result (λ f. form_of f ≡ denied (denied_part m part.now)) }
{
    if part.inner == 0 && part.basic.len() == 1 {
        return denied_atom(alloc, part.basic.get(0));
    }
    let Some(end) = m.checked_add(part.inner) else {
        return Err(NoMemory);
    };
    let atoms = conjunction_of(atoms_joined(alloc, &part.basic)?);
    let bound = quantified(alloc, m, end, atoms)?;
    negated(alloc, bound)
}

// The parts, behind what is joined before them.
fn parts_joined(
    alloc: Global,
    m: usize,
    before: Option<Formula>,
    parts: &Parts,
) -> Result<Option<Formula>, NoMemory>
    ensures { IfOk result (λ all. (fs : List Form) → Joins joint.and before fs → Joins joint.and all (fs ++ map denied (map (denied_part m) parts.now))) }
{
    let mut all = before;
    for part in parts.as_slice() {
        let f = part_formula(alloc, m, part)?;
        all = Some(and_also(alloc, all, f)?);
    }
    Ok(all)
}

// The formula of a cube.
fn cube_formula(alloc: Global, cube: &Cube) -> Result<Formula, NoMemory>
    ensures { IfOk result (λ f. form_of f ≡ cube_form cube.now) }
{
    let Some(m) = cube.free.checked_add(cube.outer) else {
        return Err(NoMemory);
    };
    let atoms = atoms_joined(alloc, &cube.basic)?;
    let all = parts_joined(alloc, m, atoms, &cube.parts)?;
    quantified(alloc, cube.free, m, conjunction_of(all))
}

// The formulas of the cubes, if there are any.
fn cubes_joined(alloc: Global, cubes: &Cubes) -> Result<Option<Formula>, NoMemory>
    ensures { IfOk result (λ all. Joins joint.or all (map cube_form cubes.now)) }
{
    let mut all = None;
    for cube in cubes.as_slice() {
        let f = cube_formula(alloc, cube)?;
        all = Some(or_else(alloc, all, f)?);
    }
    Ok(all)
}

// The formula of a list of cubes.
pub(crate) fn disjunction_of(alloc: Global, cubes: &Cubes) -> Result<Formula, NoMemory>
    ensures { IfOk result (λ f. form_of f ≡ explicit_of cubes.now) }
{
    match cubes_joined(alloc, cubes)? {
        Some(f) => Ok(f),
        None => Ok(Formula::False),
    }
}
