ghost use Rattle.std.specs.Prelude.{◌≡◌, map, IfOk};
ghost use Rattle.flat_form.specs.Normals.{norm_of, norms_of};
ghost use Rattle.flat_form.specs.Parts.{renumbered};
ghost use Rattle.flattening.specs.Flattening.{placed, denied_parts, denied, all_denied};

use crate::terms::sum;
use flat_form::{Args, Basic, Cube, Cubes, Flat, Normal, Normals, Parts};
use std::alloc::Global;
use tree_model::{NoMemory, Places};

// A cube's variable, where so many are in scope: the first are the arguments, and the others come behind the scope.
fn place(variable: usize, args: &Places, scope: usize) -> Result<usize, NoMemory>
    ensures { IfOk result (λ number. number ≡ placed args.now scope variable) }
{
    if variable < args.len() {
        return Ok(*args.get(variable));
    }
    sum(scope, variable - args.len())
}

// The atom with its variables in their places.
fn place_atom(alloc: Global, atom: &Flat, args: &Places, scope: usize) -> Result<Flat, NoMemory>
    ensures { IfOk result (λ made. made ≡ renumbered (placed args.now scope) atom.now) }
{
    match atom {
        Flat::VarVar(u, v) => {
            let left = place(*u, args, scope)?;
            let right = place(*v, args, scope)?;
            Ok(Flat::VarVar(left, right))
        }
        Flat::VarTerm(u, symbol, xs) => {
            let left = place(*u, args, scope)?;
            let arguments = place_args(alloc, xs, args, scope)?;
            Ok(Flat::VarTerm(left, *symbol, arguments))
        }
        Flat::Finite(u) => {
            let number = place(*u, args, scope)?;
            Ok(Flat::Finite(number))
        }
    }
}

fn place_args(alloc: Global, xs: &Args, args: &Places, scope: usize) -> Result<Args, NoMemory>
    ensures { IfOk result (λ made. made ≡ map (placed args.now scope) xs.now) }
{
    let mut made = Args::new(alloc);
    for &x in xs.as_slice() {
        made.push(place(x, args, scope)?)?;
    }
    Ok(made)
}

fn place_basic(alloc: Global, basic: &Basic, args: &Places, scope: usize) -> Result<Basic, NoMemory>
    ensures { IfOk result (λ made. made ≡ map (renumbered (placed args.now scope)) basic.now) }
{
    let mut made = Basic::new(alloc);
    for atom in basic.as_slice() {
        made.push(place_atom(alloc, atom, args, scope)?)?;
    }
    Ok(made)
}

// Each part of a cube as a negated conjunction.
#[tactic(auto, using(crate::proofs::Norms::norm_rules))]
fn deny_parts(
    alloc: Global,
    parts: &Parts,
    args: &Places,
    scope: usize,
) -> Result<Normals, NoMemory>
    ensures { IfOk result (λ made. norms_of made ≡ denied_parts (placed args.now scope) parts.now) }
{
    let mut made = Normals::new(alloc);
    for part in parts.as_slice() {
        let basic = place_basic(alloc, &part.basic, args, scope)?;
        made.push(Normal {
            bound: part.inner,
            basic,
            parts: Normals::new(alloc),
        })?;
    }
    Ok(made)
}

// The cube does not hold at the arguments.
#[tactic(auto, using(crate::proofs::Norms::norm_rules))]
fn deny(alloc: Global, cube: &Cube, args: &Places, scope: usize) -> Result<Normal, NoMemory>
    ensures { IfOk result (λ made. norm_of made ≡ denied args.now scope cube.now) }
{
    let basic = place_basic(alloc, &cube.basic, args, scope)?;
    let parts = deny_parts(alloc, &cube.parts, args, scope)?;
    Ok(Normal {
        bound: cube.outer,
        basic,
        parts,
    })
}

// None of the cubes holds at the arguments.
#[tactic(auto, using(crate::proofs::Norms::norm_rules))]
pub(crate) fn deny_all(
    alloc: Global,
    cubes: &Cubes,
    args: &Places,
    scope: usize,
) -> Result<Normals, NoMemory>
    ensures { IfOk result (λ made. norms_of made ≡ all_denied args.now scope cubes.now) }
{
    let mut made = Normals::new(alloc);
    for cube in cubes.as_slice() {
        made.push(deny(alloc, cube, args, scope)?)?;
    }
    Ok(made)
}
