use super::*;
use lists::Copied;
use std::alloc::Global;
use std::test::*;
use tree_model::{NoMemory, Symbol};

#[test]
fn laws_can_be_called(_rt: HostRuntime) {
    meanings_are_stable();
}

#[test]
fn ten_arguments_are_kept_and_copied(rt: HostRuntime) -> Result<(), Fail> {
    let mut args = Args::new(rt.alloc());
    for i in 0..10 {
        assert_eq!(rt; args.push(2 * i), Ok(()));
    }
    let copy = args.copy(rt.alloc())?;
    assert_eq!(rt; copy.len(), 10);
    assert_eq!(rt; *copy.get(0), 0);
    assert_eq!(rt; *copy.get(9), 18);
    Ok(())
}

// The equation of variable 1 with a symbol applied to variable 0.
fn equation(alloc: Global) -> Result<Flat, NoMemory> {
    let mut args = Args::new(alloc);
    args.push(0)?;
    Ok(Flat::VarTerm(1, Symbol::Further(3), args))
}

// One atom of each kind.
fn three_atoms(alloc: Global) -> Result<Basic, NoMemory> {
    let mut basic = Basic::new(alloc);
    basic.push(Flat::VarVar(0, 2))?;
    basic.push(equation(alloc)?)?;
    basic.push(Flat::Finite(2))?;
    Ok(basic)
}

// The atoms are those of `three_atoms`.
fn are_three_atoms(basic: &Basic) -> bool {
    if basic.len() != 3 {
        return false;
    }
    let first = match basic.get(0) {
        Flat::VarVar(u, v) => *u == 0 && *v == 2,
        _ => false,
    };
    let second = match basic.get(1) {
        Flat::VarTerm(u, symbol, args) => {
            *u == 1 && *symbol == Symbol::Further(3) && args.len() == 1 && *args.get(0) == 0
        }
        _ => false,
    };
    let third = match basic.get(2) {
        Flat::Finite(u) => *u == 2,
        _ => false,
    };
    first && second && third
}

#[test]
fn atoms_are_kept_and_copied(rt: HostRuntime) -> Result<(), Fail> {
    let basic = three_atoms(rt.alloc())?;
    assert!(rt; are_three_atoms(&basic));
    assert!(rt; are_three_atoms(&basic.copy(rt.alloc())?));
    assert!(rt; equation(rt.alloc())?.copy(rt.alloc()).is_ok());
    Ok(())
}

// A cube over one free variable, with one part.
fn cube(alloc: Global) -> Result<Cube, NoMemory> {
    let mut parts = Parts::new(alloc);
    parts.push(Part {
        inner: 1,
        basic: three_atoms(alloc)?,
    })?;
    Ok(Cube {
        free: 1,
        outer: 2,
        basic: three_atoms(alloc)?,
        parts,
    })
}

#[test]
fn cubes_are_kept_and_copied(rt: HostRuntime) -> Result<(), Fail> {
    let mut cubes = Cubes::new(rt.alloc());
    cubes.push(cube(rt.alloc())?)?;
    cubes.push(cube(rt.alloc())?.copy(rt.alloc())?)?;
    let cubes = cubes.copy(rt.alloc())?;
    assert_eq!(rt; cubes.len(), 2);
    for i in 0..2 {
        let cube = cubes.get(i);
        assert_eq!(rt; (cube.free, cube.outer), (1, 2));
        assert!(rt; are_three_atoms(&cube.basic));
        let parts = cube.parts.copy(rt.alloc())?;
        assert_eq!(rt; parts.len(), 1);
        let part = parts.get(0).copy(rt.alloc())?;
        assert_eq!(rt; part.inner, 1);
        assert!(rt; are_three_atoms(&part.basic));
    }
    Ok(())
}

// A negated conjunction with these parts.
fn normal(alloc: Global, bound: usize, parts: Normals) -> Result<Normal, NoMemory> {
    Ok(Normal {
        bound,
        basic: three_atoms(alloc)?,
        parts,
    })
}

#[test]
fn nested_negations_are_kept_and_copied(rt: HostRuntime) -> Result<(), Fail> {
    let mut parts = Normals::new(rt.alloc());
    parts.push(normal(rt.alloc(), 5, Normals::new(rt.alloc()))?)?;
    parts.push(normal(rt.alloc(), 6, Normals::new(rt.alloc()))?)?;
    let parts = parts.copy(rt.alloc())?;
    let whole = normal(rt.alloc(), 7, parts)?.copy(rt.alloc())?;
    assert_eq!(rt; whole.bound, 7);
    assert!(rt; are_three_atoms(&whole.basic));
    assert_eq!(rt; whole.parts.len(), 2);
    assert_eq!(rt; whole.parts.get(0).bound, 5);
    assert_eq!(rt; whole.parts.get(1).bound, 6);
    assert_eq!(rt; whole.parts.get(1).parts.len(), 0);
    Ok(())
}

// A list of an equation of variable 0 with a symbol applied to variable `argument`, then one of variable 1 with variable
// `right`, then that variable 2 is finite.
fn list(alloc: Global, argument: usize, right: usize) -> Result<Basic, NoMemory> {
    let mut args = Args::new(alloc);
    args.push(argument)?;
    let mut basic = Basic::new(alloc);
    basic.push(Flat::VarTerm(0, Symbol::Named(4), args))?;
    basic.push(Flat::VarVar(1, right))?;
    basic.push(Flat::Finite(2))?;
    Ok(basic)
}

#[test]
fn solved_lists_are_told(rt: HostRuntime) -> Result<(), Fail> {
    assert!(rt; is_solved(&Basic::new(rt.alloc())));
    assert!(rt; is_solved(&list(rt.alloc(), 2, 0)?));
    assert!(rt; is_solved(&list(rt.alloc(), 0, 0)?));
    assert!(rt;
        !is_solved(&list(rt.alloc(), 1, 0)?),
        "an argument that equals another variable"
    );
    assert!(rt;
        !is_solved(&list(rt.alloc(), 2, 2)?),
        "a greater variable on the right"
    );
    assert!(rt;
        !is_solved(&three_atoms(rt.alloc())?),
        "variables out of order"
    );
    Ok(())
}
