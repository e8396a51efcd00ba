ghost use Rattle.std.specs.Prelude.{◌<◌, IfOk};
ghost use Rattle.flat_form.specs.Normals.{norm_of};
ghost use Rattle.flat_form.specs.Numbering.{BasicOver, NormOver};
ghost use Rattle.node_facts.specs.Branches.{with_parts};

use super::*;
use flat_form::{Args, Basic, Cube, Cubes, Flat, Normal, Normals, Parts, is_same_cube};
use lists::NoMemory;
use std::alloc::Global;
use std::test::*;
use tree_model::Symbol;

#[test]
fn laws_can_be_called(_rt: HostRuntime) {
    standing_laws();
    turned_laws();
}

// A negated conjunction with these parts, which is told by its number of bound variables.
fn nest(alloc: Global, bound: usize, parts: Normals) -> Normal {
    Normal {
        bound,
        basic: Basic::new(alloc),
        parts,
    }
}

fn leaf(alloc: Global, bound: usize) -> Normal {
    nest(alloc, bound, Normals::new(alloc))
}

fn with_one(alloc: Global, bound: usize, part: Normal) -> Result<Normal, NoMemory> {
    let mut parts = Normals::new(alloc);
    parts.push(part)?;
    Ok(nest(alloc, bound, parts))
}

fn with_two(alloc: Global, bound: usize, left: Normal, right: Normal) -> Result<Normal, NoMemory> {
    let mut parts = Normals::new(alloc);
    parts.push(left)?;
    parts.push(right)?;
    Ok(nest(alloc, bound, parts))
}

// 10 with the parts 11, which has 12, and 13, which has 14 and 15.
fn tree(alloc: Global) -> Result<Arena, NoMemory> {
    let left = with_one(alloc, 11, leaf(alloc, 12))?;
    let right = with_two(alloc, 13, leaf(alloc, 14), leaf(alloc, 15))?;
    Arena::plant(alloc, &with_two(alloc, 10, left, right)?)
}

// The branches bind so many variables, have so many parts and end at these places, in order.
fn is_like(tree: &Arena, slots: &[(usize, usize, usize)]) -> bool {
    if slots.len() != tree.len() {
        return false;
    }
    for (i, (bound, parts, end)) in slots.iter().enumerate() {
        if i < tree.len() {
            let slot = tree.slot(i);
            if slot.bound != *bound || slot.parts != *parts || slot.end != *end {
                return false;
            }
        }
    }
    true
}

// Puts an empty list at the ready branch with this number. Its place.
fn turn(alloc: Global, tree: &mut Arena, pick: usize) -> Option<usize> {
    if tree.ready() <= pick {
        return None;
    }
    let place = tree.ready_place(pick);
    tree.put_list(place, Cubes::new(alloc));
    Some(place)
}

#[test]
fn a_branch_stands_before_its_parts(rt: HostRuntime) -> Result<(), Fail> {
    let tree = tree(rt.alloc())?;
    let slots = [
        (10, 2, 6),
        (11, 1, 3),
        (12, 0, 3),
        (13, 2, 6),
        (14, 0, 5),
        (15, 0, 6),
    ];
    assert!(rt; is_like(&tree, &slots));
    Ok(())
}

#[test]
fn branches_are_ready_from_the_inside_out(rt: HostRuntime) -> Result<(), Fail> {
    let mut tree = tree(rt.alloc())?;
    assert_eq!(rt; tree.ready(), 2);
    assert_eq!(rt; turn(rt.alloc(), &mut tree, 1), Some(3));
    assert_eq!(rt; turn(rt.alloc(), &mut tree, 1), None);
    assert_eq!(rt; turn(rt.alloc(), &mut tree, 0), Some(1));
    assert_eq!(rt; turn(rt.alloc(), &mut tree, 0), Some(0));
    assert_eq!(rt; tree.ready(), 0);
    assert!(rt; tree.into_list().is_some());
    Ok(())
}

// Atoms that say that the variable is the constant with this number, over n variables.
fn is_constant(alloc: Global, n: usize, variable: usize, name: usize) -> Result<Basic, NoMemory>
    ensures { IfOk result (BasicOver n) }
{
    let mut atoms = Basic::new(alloc);
    if variable < n {
        let symbol = Symbol::Named(name);
        atoms.push(Flat::VarTerm(variable, symbol, Args::new(alloc)))?;
    }
    Ok(atoms)
}

// The variable is not the constant.
fn differs(alloc: Global, n: usize, variable: usize, name: usize) -> Result<Normal, NoMemory>
    ensures { IfOk result (λ made. NormOver n (norm_of made)) }
{
    Ok(Normal {
        bound: 0,
        basic: is_constant(alloc, n, variable, name)?,
        parts: Normals::new(alloc),
    })
}

// Not both the atoms and the part hold.
fn not_with(alloc: Global, n: usize, basic: Basic, part: Normal) -> Result<Normal, NoMemory>
    requires basic { BasicOver n basic }
    requires part { NormOver n (norm_of part) }
    ensures over { IfOk result (λ made. NormOver n (norm_of made)) }
    ensures parts { IfOk result (λ made. 0 < with_parts (norm_of made)) }
{
    let mut parts = Normals::new(alloc);
    parts.push(part)?;
    Ok(Normal {
        bound: 0,
        basic,
        parts,
    })
}

// Not both hold.
fn not_both(alloc: Global, n: usize, left: Normal, right: Normal) -> Result<Normal, NoMemory>
    requires left { NormOver n (norm_of left) }
    requires right { NormOver n (norm_of right) }
    ensures { IfOk result (λ made. NormOver n (norm_of made)) }
{
    let mut parts = Normals::new(alloc);
    parts.push(left)?;
    parts.push(right)?;
    Ok(Normal {
        bound: 0,
        basic: Basic::new(alloc),
        parts,
    })
}

// The variable 0 is one of two constants.
fn is_either(alloc: Global) -> Result<Normal, NoMemory>
    ensures { IfOk result (λ made. NormOver 1 (norm_of made)) }
{
    let left = differs(alloc, 1, 0, 0)?;
    let right = differs(alloc, 1, 0, 1)?;
    not_both(alloc, 1, left, right)
}

// It is so twice.
fn either_twice(alloc: Global) -> Result<Machine, NoMemory> {
    let both = not_both(alloc, 1, is_either(alloc)?, is_either(alloc)?)?;
    let n = not_with(alloc, 1, Basic::new(alloc), both)?;
    Machine::new(alloc, 1, &n)
}

// The variable 0 is the constant 0, and not: the variable 1 is the constant 1 and the variable 0 is not the constant 0.
fn one_constant(alloc: Global) -> Result<Machine, NoMemory> {
    let inside = is_constant(alloc, 2, 1, 1)?;
    let denied = not_with(alloc, 2, inside, differs(alloc, 2, 0, 0)?)?;
    let both = not_with(alloc, 2, is_constant(alloc, 2, 0, 0)?, denied)?;
    let n = not_with(alloc, 2, Basic::new(alloc), both)?;
    Machine::new(alloc, 2, &n)
}

// Makes these turns: how many branches are ready, and which of them is picked. Whether it is so, and none is left.
fn goes_so(machine: &mut Machine, steps: &[(usize, usize)]) -> Result<bool, NoMemory> {
    for (ready, pick) in steps {
        if machine.ready() != *ready || *pick >= *ready {
            return Ok(false);
        }
        machine.turn(*pick)?;
    }
    Ok(machine.ready() == 0 && machine.turns() == steps.len() as u64)
}

// The list of the root, if no branch is ready.
fn list_of(alloc: Global, machine: Machine) -> Cubes {
    if machine.ready() != 0 {
        return Cubes::new(alloc);
    }
    machine.into_cubes()
}

// Whether the machine goes by these steps from the first to the last turn, and comes to so many cubes.
fn either_goes_so(alloc: Global, steps: &[(usize, usize)], count: usize) -> Result<bool, NoMemory> {
    let mut machine = either_twice(alloc)?;
    let is_so = goes_so(&mut machine, steps)?;
    let cubes = list_of(alloc, machine);
    Ok(is_so && cubes.len() == count)
}

#[test]
fn turns_are_made_in_any_order(rt: HostRuntime) -> Result<(), Fail> {
    let later_first = [(2, 1), (1, 0), (1, 0), (1, 0)];
    let earlier_first = [(2, 0), (1, 0), (1, 0), (1, 0)];
    assert!(rt; either_goes_so(rt.alloc(), &later_first, 2)?);
    assert!(rt; either_goes_so(rt.alloc(), &earlier_first, 2)?);
    Ok(())
}

// The cube over two variables that says that the variable 0 is the constant 0.
fn is_first_constant(alloc: Global) -> Result<Cube, NoMemory> {
    Ok(Cube {
        free: 2,
        outer: 0,
        basic: is_constant(alloc, 2, 0, 0)?,
        parts: Parts::new(alloc),
    })
}

// Whether what is said of one constant comes to the one cube.
fn comes_to_one(alloc: Global) -> Result<bool, NoMemory> {
    let mut machine = one_constant(alloc)?;
    let is_so = goes_so(&mut machine, &[(1, 0), (1, 0), (1, 0)])?;
    let cubes = list_of(alloc, machine);
    let expected = is_first_constant(alloc)?;
    Ok(is_so && cubes.len() == 1 && is_same_cube(cubes.get(0), &expected))
}

#[test]
fn a_cube_that_fails_beside_the_atoms_round_is_left_out(rt: HostRuntime) -> Result<(), Fail> {
    assert!(rt; comes_to_one(rt.alloc())?);
    Ok(())
}

// The variable 0 is f of the variable 1, and that is f of the variable 0.
fn each_is_of_the_other(alloc: Global) -> Result<Basic, NoMemory>
    ensures { IfOk result (BasicOver 2) }
{
    let mut first = Args::new(alloc);
    first.push(1)?;
    let mut second = Args::new(alloc);
    second.push(0)?;
    let mut atoms = Basic::new(alloc);
    atoms.push(Flat::VarTerm(0, Symbol::Named(0), first))?;
    atoms.push(Flat::VarTerm(1, Symbol::Named(0), second))?;
    Ok(atoms)
}

// No value of the variable 1 makes these hold.
fn none_of_the_other(alloc: Global) -> Result<Normal, NoMemory>
    ensures { IfOk result (λ made. NormOver 1 (norm_of made)) }
{
    Ok(Normal {
        bound: 1,
        basic: each_is_of_the_other(alloc)?,
        parts: Normals::new(alloc),
    })
}

fn each_of_the_other_goes(alloc: Global) -> Result<bool, NoMemory> {
    let n = not_with(alloc, 1, Basic::new(alloc), none_of_the_other(alloc)?)?;
    let mut machine = Machine::new(alloc, 1, &n)?;
    let is_so = goes_so(&mut machine, &[(1, 0)])?;
    let cubes = list_of(alloc, machine);
    let expected = Cube {
        free: 1,
        outer: 1,
        basic: each_is_of_the_other(alloc)?,
        parts: Parts::new(alloc),
    };
    Ok(is_so && cubes.len() == 1 && is_same_cube(cubes.get(0), &expected))
}

#[test]
fn a_machine_comes_to_the_cube_of_an_endless_tree(rt: HostRuntime) -> Result<(), Fail> {
    assert!(rt; each_of_the_other_goes(rt.alloc())?);
    Ok(())
}
