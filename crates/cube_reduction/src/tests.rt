ghost use Rattle.std.specs.Prelude.{◌≡◌, ◌<◌, ◌≤◌, ◌+◌, length, IfOk};
ghost use Rattle.flat_form.specs.Numbering.{AtomOver, BasicOver, PartOver, IsWellNumbered};

mod cases;
mod game;

use super::*;
use cases::{COUNT, LOOPS, RANDOM};
use flat_form::{Args, Basic, Cube, Flat, Part, Parts, is_same_cube};
use game::GAME;
use lists::NoMemory;
use std::alloc::Global;
use std::test::*;
use tree_model::Symbol;

// A cube is written as four numbers, how many variables are free and how many outer, how many atoms follow and how many
// parts. A part is two numbers, how many variables are inner and how many atoms follow. An atom is `=` and two variables,
// `!` and a variable, or a digit up to two, a variable, a symbol and as many variables. A number is the one of a byte, counted
// from `0`, and so is a variable, counted from `A`. A symbol is a letter for a name or a digit for a further one.

// The next byte, or a blank at the end.
fn next(text: &[u8], at: &mut usize) -> u8 {
    if *at < text.len() {
        let byte = text[*at];
        *at += 1;
        byte
    } else {
        b' '
    }
}

fn number(text: &[u8], at: &mut usize) -> usize {
    next(text, at).saturating_sub(b'0') as usize
}

// A variable below n. There is an error where the text has none.
fn variable(text: &[u8], at: &mut usize, n: usize) -> Result<usize, NoMemory>
    ensures { IfOk result (λ v. v < n) }
{
    let v = next(text, at).saturating_sub(b'A') as usize;
    if v < n { Ok(v) } else { Err(NoMemory) }
}

fn symbol(text: &[u8], at: &mut usize) -> Symbol {
    let byte = next(text, at);
    if byte < b'a' {
        Symbol::Further(byte.saturating_sub(b'0') as u64)
    } else {
        Symbol::Named((byte - b'a') as usize)
    }
}

fn term(alloc: Global, text: &[u8], at: &mut usize, n: usize, count: u8) -> Result<Flat, NoMemory>
    ensures { IfOk result (AtomOver n) }
{
    let u = variable(text, at, n)?;
    let symbol = symbol(text, at);
    let mut args = Args::new(alloc);
    if count > b'0' {
        args.push(variable(text, at, n)?)?;
    }
    if count > b'1' {
        args.push(variable(text, at, n)?)?;
    }
    Ok(Flat::VarTerm(u, symbol, args))
}

fn atom(alloc: Global, text: &[u8], at: &mut usize, n: usize) -> Result<Flat, NoMemory>
    ensures { IfOk result (AtomOver n) }
{
    match next(text, at) {
        b'=' => {
            let u = variable(text, at, n)?;
            let v = variable(text, at, n)?;
            Ok(Flat::VarVar(u, v))
        }
        b'!' => Ok(Flat::Finite(variable(text, at, n)?)),
        count => term(alloc, text, at, n, count),
    }
}

fn basic(
    alloc: Global,
    text: &[u8],
    at: &mut usize,
    n: usize,
    count: usize,
) -> Result<Basic, NoMemory>
    ensures { IfOk result (BasicOver n) }
{
    let mut atoms = Basic::new(alloc);
    for _place in 0..count {
        let item = atom(alloc, text, at, n)?;
        atoms.push(item)?;
    }
    Ok(atoms)
}

fn part(alloc: Global, text: &[u8], at: &mut usize, m: usize) -> Result<Part, NoMemory>
    ensures { IfOk result (PartOver m) }
{
    let inner = number(text, at);
    let count = number(text, at);
    let Some(n) = m.checked_add(inner) else {
        return Err(NoMemory);
    };
    let basic = basic(alloc, text, at, n, count)?;
    Ok(Part { inner, basic })
}

fn cube(alloc: Global, text: &[u8], at: &mut usize) -> Result<Cube, NoMemory>
    ensures { IfOk result IsWellNumbered }
{
    let free = number(text, at);
    let outer = number(text, at);
    let count = number(text, at);
    let part_count = number(text, at);
    let Some(m) = free.checked_add(outer) else {
        return Err(NoMemory);
    };
    let basic = basic(alloc, text, at, m, count)?;
    let mut parts = Parts::new(alloc);
    for _place in 0..part_count {
        let item = part(alloc, text, at, m)?;
        parts.push(item)?;
    }
    Ok(Cube {
        free,
        outer,
        basic,
        parts,
    })
}

// Reads a cube, and `-` where there is none, or `+` and the cube that it reduces to. Whether `reduce` finds this.
fn is_right(alloc: Global, text: &[u8], at: &mut usize) -> Result<bool, NoMemory> {
    let raw = cube(alloc, text, at)?;
    let found = reduce(alloc, &raw)?;
    match next(text, at) {
        b'+' => {
            let expected = cube(alloc, text, at)?;
            match found {
                Some(reduced) => Ok(is_same_cube(&reduced, &expected)),
                None => Ok(false),
            }
        }
        b'-' => Ok(found.is_none()),
        _ => Ok(false),
    }
}

// Whether each of so many lines is right.
fn are_right(alloc: Global, text: &str, lines: usize) -> Result<bool, NoMemory> {
    let text = text.as_bytes();
    let mut at = 0;
    let mut all = true;
    for _ in 0..lines {
        if !is_right(alloc, text, &mut at)? {
            all = false;
        }
        let _ = next(text, &mut at);
    }
    Ok(all)
}

#[test]
fn random_cubes_reduce_as_defined(rt: HostRuntime) -> Result<(), NoMemory> {
    assert!(rt; are_right(rt.alloc(), RANDOM, COUNT)?);
    Ok(())
}

#[test]
fn parts_that_mention_idle_variables_go(rt: HostRuntime) -> Result<(), NoMemory> {
    assert!(rt; are_right(rt.alloc(), "110101=BA+1000\n", 1)?);
    assert!(rt; are_right(rt.alloc(), "110301!B01=BA111BcC+1000\n", 1)?);
    Ok(())
}

#[test]
fn a_part_that_holds_everywhere_leaves_no_cube(rt: HostRuntime) -> Result<(), NoMemory> {
    assert!(rt; are_right(rt.alloc(), "20211AcA1BcB01=AB-\n", 1)?);
    Ok(())
}

#[test]
fn needed_variables_stay(rt: HostRuntime) -> Result<(), NoMemory> {
    assert!(rt; are_right(rt.alloc(), "11111AcB010Ba+11111AcB010Ba\n", 1)?);
    Ok(())
}

// Loops that are equal in every solution and stand in different classes.
#[test]
fn parts_are_settled_again_as_they_then_stand(rt: HostRuntime) -> Result<(), NoMemory> {
    assert!(rt; are_right(rt.alloc(), LOOPS, 4)?);
    Ok(())
}

// Cubes of more than three hundred atoms.
#[test]
fn large_cubes_reduce_as_defined(rt: HostRuntime) -> Result<(), NoMemory> {
    assert!(rt; are_right(rt.alloc(), GAME, 2)?);
    Ok(())
}
