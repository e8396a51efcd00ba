//! The determined variables of a cube go into its parts, with their equations, and the others close up.
ghost use Rattle.std.specs.Prelude.{◌≡◌, ◌<◌, ◌≤◌, ◌+◌, ◌↔◌, ℕ, length, leb, ltb, IfOk, All, Contains};
ghost use Rattle.std.specs.List.{filter};
ghost use Rattle.std.specs.List.Sorted.{IsStrictlyIncreasing};
ghost use Rattle.lists.specs.Distinct.{IsDistinct};
ghost use Rattle.flat_form.specs.Added.{IsSolvedForm};
ghost use Rattle.flat_form.specs.Numbering.{BasicOver, IsWellNumbered};
ghost use Rattle.flat_form.specs.Solved.{variable_of, Ascends};
ghost use Rattle.flat_form.specs.Steps.{IsOuter, IsGrouped};
ghost use Rattle.reachability.specs.Flags.{IsSet};
ghost use Rattle.cube_reduction.specs.Grouping.{number_by, IsRegrouped};
ghost use Rattle.cube_reduction.specs.Numbers.{number_in};

use crate::numbers::Numbers;
use crate::over::copy_onto;
use flat_form::{Basic, Cube, Flat, variable};
use lists::{Copied, List, NoMemory};
use numbering::number_all;
use reachability::split;
use std::alloc::Global;

// A cube without its determined variables, and its idle ones.
#[derive(Debug, Drop)]
pub(crate) struct Grouped {
    pub(crate) mid: Cube,
    pub(crate) idle: List<usize>,
}

// Flags for so many variables, those of these set.
fn flags_of(alloc: Global, count: usize, xs: &[usize]) -> Result<Vec<bool>, NoMemory>
    requires { All (λ x. x < count) xs.now }
    ensures size { IfOk result (λ flags. length flags.items ≡ count) }
    ensures is { IfOk result (λ flags. (v : ℕ) → IsSet flags.items v ↔ Contains xs.now v) }
{
    let mut flags = vec![in alloc; false; count]?;
    for &x in xs {
        flags[x] = true;
    }
    Ok(flags)
}

// The variables from first on and below count that are not among these, in ascending order.
fn others(alloc: Global, first: usize, count: usize, xs: &[usize]) -> Result<List<usize>, NoMemory>
    requires low { first ≤ count }
    requires among { All (λ x. x < count) xs.now }
    ensures ascending { IfOk result IsStrictlyIncreasing }
    ensures is { IfOk result (λ kept. (v : ℕ) → Contains kept v ↔ ((first ≤ v) × (v < count) × (¬ Contains xs.now v))) }
{
    let flags = flags_of(alloc, count, xs)?;
    let mut kept = List::new(alloc);
    for v in first..count {
        if !flags[v] {
            kept.push(v)?;
        }
    }
    Ok(kept)
}

// The atoms of the variables below m.
fn atoms_below(alloc: Global, m: usize, atoms: &[Flat]) -> Result<Basic, NoMemory>
    ensures { IfOk result (λ found. found ≡ filter (λ atom. ltb (variable_of atom) m) atoms.now) }
{
    let mut found = Basic::with_capacity(alloc, atoms.len())?;
    for atom in atoms {
        if variable(atom) < m {
            found.push(atom.copy(alloc)?)?;
        }
    }
    Ok(found)
}

// The atoms of the variables from m on.
fn atoms_from(alloc: Global, m: usize, atoms: &[Flat]) -> Result<Basic, NoMemory>
    ensures { IfOk result (λ found. found ≡ filter (λ atom. leb m (variable_of atom)) atoms.now) }
{
    let mut found = Basic::new(alloc);
    for atom in atoms {
        if m <= variable(atom) {
            found.push(atom.copy(alloc)?)?;
        }
    }
    Ok(found)
}

// The cube with its variables in this order and this basic. As many outer variables as are kept stay, and the others
// move into each part, with their atoms.
fn regrouped(
    alloc: Global,
    raw: Cube,
    form: &Basic,
    numbers: &Numbers,
    order: &[usize],
    kept: usize,
    more: usize,
) -> Result<Cube, NoMemory>
    requires ascends { Ascends form.now }
    requires over { BasicOver (raw.free + raw.outer) form.now }
    requires distinct { IsDistinct order.now }
    requires order { (v : ℕ) → Contains order.now v ↔ IsOuter raw.free raw.outer v }
    requires numbers { number_in numbers.now.table.items numbers.now.behind ≡ number_by raw order.now }
    ensures { IfOk result (IsRegrouped raw form.now order.now kept more) }
{
    let Some(scope) = raw.free.checked_add(raw.outer) else {
        return Err(NoMemory);
    };
    let Some(m) = raw.free.checked_add(kept) else {
        return Err(NoMemory);
    };
    let all = number_all(alloc, raw.free, scope, order, form)?;
    let basic = atoms_below(alloc, m, all.as_slice())?;
    let moved = atoms_from(alloc, m, all.as_slice())?;
    let parts = numbers.of_parts(alloc, more, &moved, raw.parts)?;
    Ok(Cube {
        free: raw.free,
        outer: kept,
        basic,
        parts,
    })
}

// The raw cube without its determined variables, where this is the solved form of its basic.
pub(crate) fn group(alloc: Global, raw: Cube, form: &Basic) -> Result<Grouped, NoMemory>
    requires over { IsWellNumbered raw }
    requires solved { IsSolvedForm raw.basic form.now }
    ensures { IfOk result (λ found. IsGrouped raw found.mid found.idle) }
{
    let Some(scope) = raw.free.checked_add(raw.outer) else {
        return Err(NoMemory);
    };
    let outers = split(alloc, raw.free, raw.outer, form)?;
    let determined = outers.determined.as_slice();
    let kept = others(alloc, raw.free, scope, determined)?;
    let mut order = kept.copy(alloc)?;
    copy_onto(alloc, &mut order, determined)?;
    let numbers = Numbers::new(alloc, raw.free, scope, order.as_slice())?;
    let mid = regrouped(
        alloc,
        raw,
        form,
        &numbers,
        order.as_slice(),
        kept.len(),
        determined.len(),
    )?;
    let idle = numbers.of_all(alloc, outers.idle.as_slice())?;
    Ok(Grouped { mid, idle })
}
