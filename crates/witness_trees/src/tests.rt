ghost use Rattle.std.specs.Prelude.{◌<◌, ℕ, List, IfOk};
ghost use Rattle.flat_form.specs.Numbering.{AtomOver, BasicOver, IsWellNumbered};
ghost use Rattle.flat_form.specs.Reduced.{IsReduced};
ghost use Rattle.witness_trees.specs.Values.{IndexesAreUsed};

mod cases;

use super::*;
use crate::assigning::assigned;
use cases::ROWS;
use flat_form::{Args, Basic, Cube, Flat, Parts, is_solved};
use lists::NoMemory;
use std::alloc::Global;
use std::test::*;
use tree_model::{Assignment, Node, Symbol};

// A row is a cube and the used indexes, then `>`, then the assignment. A cube is written as three digits, how many
// variables are free, how many outer and how many atoms follow. An atom is `=` and two variables, `!` and a variable, or a
// digit up to two, a variable, a symbol and as many variables. Variables are `A`, `B`, ... A symbol is a letter for a name
// or a digit for a further one. An index is a digit. An assignment is written as its nodes, a symbol and the places of the
// children, with a comma behind each, then a stroke and the places of the roots.

// The next byte, or a blank at the end.
fn next(text: &[u8], at: &mut usize) -> u8 {
    if *at < text.len() {
        let byte = text[*at];
        *at += 1;
        byte
    } else {
        b' '
    }
}

fn number(text: &[u8], at: &mut usize) -> usize {
    next(text, at).saturating_sub(b'0') as usize
}

// A variable below n. There is an error where the text has none.
fn variable(text: &[u8], at: &mut usize, n: usize) -> Result<usize, NoMemory>
    ensures { IfOk result (λ v. v < n) }
{
    let v = next(text, at).saturating_sub(b'A') as usize;
    if v < n { Ok(v) } else { Err(NoMemory) }
}

fn symbol(text: &[u8], at: &mut usize) -> Symbol {
    let byte = next(text, at);
    if byte < b'a' {
        Symbol::Further(byte.saturating_sub(b'0') as u64)
    } else {
        Symbol::Named((byte - b'a') as usize)
    }
}

fn term(alloc: Global, text: &[u8], at: &mut usize, n: usize, count: u8) -> Result<Flat, NoMemory>
    ensures { IfOk result (AtomOver n) }
{
    let u = variable(text, at, n)?;
    let symbol = symbol(text, at);
    let mut args = Args::new(alloc);
    if count > b'0' {
        args.push(variable(text, at, n)?)?;
    }
    if count > b'1' {
        args.push(variable(text, at, n)?)?;
    }
    Ok(Flat::VarTerm(u, symbol, args))
}

fn atom(alloc: Global, text: &[u8], at: &mut usize, n: usize) -> Result<Flat, NoMemory>
    ensures { IfOk result (AtomOver n) }
{
    match next(text, at) {
        b'=' => {
            let u = variable(text, at, n)?;
            let v = variable(text, at, n)?;
            Ok(Flat::VarVar(u, v))
        }
        b'!' => Ok(Flat::Finite(variable(text, at, n)?)),
        count => term(alloc, text, at, n, count),
    }
}

fn basic(
    alloc: Global,
    text: &[u8],
    at: &mut usize,
    n: usize,
    count: usize,
) -> Result<Basic, NoMemory>
    ensures { IfOk result (BasicOver n) }
{
    let mut atoms = Basic::new(alloc);
    for _place in 0..count {
        let item = atom(alloc, text, at, n)?;
        atoms.push(item)?;
    }
    Ok(atoms)
}

// A cube without parts.
fn cube(alloc: Global, text: &[u8], at: &mut usize) -> Result<Cube, NoMemory>
    ensures { IfOk result IsWellNumbered }
{
    let free = number(text, at);
    let outer = number(text, at);
    let count = number(text, at);
    let Some(m) = free.checked_add(outer) else {
        return Err(NoMemory);
    };
    let basic = basic(alloc, text, at, m, count)?;
    Ok(Cube {
        free,
        outer,
        basic,
        parts: Parts::new(alloc),
    })
}

fn indexes(alloc: Global, text: &[u8], at: &mut usize) -> Result<Vec<u64>, NoMemory> {
    let mut used = Vec::new(alloc);
    for _place in *at..text.len() {
        used.push(number(text, at) as u64)?;
    }
    Ok(used)
}

// The digit of a number below ten, else a question mark.
fn digit(number: u64) -> char {
    if number < 10 {
        (b'0' + number as u8) as char
    } else {
        '?'
    }
}

fn write_symbol(symbol: Symbol, out: &mut String) -> Result<(), NoMemory> {
    match symbol {
        Symbol::Named(0) => out.push('a')?,
        Symbol::Named(1) => out.push('b')?,
        Symbol::Named(2) => out.push('c')?,
        Symbol::Named(_) => out.push('d')?,
        Symbol::Further(k) => out.push(digit(k))?,
    }
    Ok(())
}

fn write_places(places: &[usize], out: &mut String) -> Result<(), NoMemory> {
    for &place in places {
        out.push(digit(place as u64))?;
    }
    Ok(())
}

fn write_node(node: &Node, out: &mut String) -> Result<(), NoMemory> {
    write_symbol(node.symbol, out)?;
    write_places(node.children.as_slice(), out)?;
    out.push(',')?;
    Ok(())
}

fn write_assignment(a: &Assignment, out: &mut String) -> Result<(), NoMemory> {
    for node in a.nodes() {
        write_node(node, out)?;
    }
    out.push('/')?;
    write_places(a.roots().as_slice(), out)
}

// Writes the fresh assignment of the cube, where that has the shape of a solved one.
fn write_fresh(alloc: Global, text: &[u8], out: &mut String) -> Result<(), NoMemory> {
    let mut at = 0;
    let cube = cube(alloc, text, &mut at)?;
    let used = indexes(alloc, text, &mut at)?;
    if !is_solved(&cube.basic) {
        return Ok(());
    }
    let assignment = assigned(alloc, &cube, used.as_slice())?;
    write_assignment(&assignment, out)
}

// Whether the assignment of the row is the one of its cube.
fn is_right(alloc: Global, row: &str) -> Result<bool, Fail> {
    let (left, right) = row.split_once(">").ok_or("a row has two parts")?;
    let mut out = String::new(alloc);
    write_fresh(alloc, left.as_bytes(), &mut out)?;
    Ok(out.as_str() == right)
}

#[test]
fn random_cubes_have_these_assignments(rt: HostRuntime) -> Result<(), Fail> {
    for row in ROWS.lines() {
        assert!(rt; is_right(rt.alloc(), row)?);
    }
    Ok(())
}

#[test]
fn two_that_lead_to_each_other_are_two_nodes(rt: HostRuntime) -> Result<(), Fail> {
    assert!(rt; is_right(rt.alloc(), "1121AaB1BaA>a1,a0,/0")?);
    Ok(())
}

#[test]
fn used_indexes_are_left_out(rt: HostRuntime) -> Result<(), Fail> {
    assert!(rt; is_right(rt.alloc(), "200>00,11,/01")?);
    assert!(rt; is_right(rt.alloc(), "2000>10,21,/01")?);
    assert!(rt; is_right(rt.alloc(), "20031>00,21,/01")?);
    Ok(())
}

#[test]
fn a_finite_variable_is_a_constant(rt: HostRuntime) -> Result<(), Fail> {
    assert!(rt; is_right(rt.alloc(), "201!A>0,11,/01")?);
    Ok(())
}

#[test]
fn equal_variables_are_one_node(rt: HostRuntime) -> Result<(), Fail> {
    assert!(rt; is_right(rt.alloc(), "301=CA>00,11,/010")?);
    Ok(())
}

// The cube over so many variables that says nothing.
fn empty(alloc: Global, free: usize) -> Cube
    ensures reduced { IsReduced result }
    ensures bare { (used : List ℕ) → IndexesAreUsed result used }
{
    Cube {
        free,
        outer: 0,
        basic: Basic::new(alloc),
        parts: Parts::new(alloc),
    }
}

#[test]
fn a_cube_that_says_nothing_has_loops(rt: HostRuntime) -> Result<(), Fail> {
    let cube = empty(rt.alloc(), 2);
    let mut used = Vec::new(rt.alloc());
    used.push(1)?;
    let assignment = witness(rt.alloc(), &cube, used.as_slice())?;
    let mut out = String::new(rt.alloc());
    write_assignment(&assignment, &mut out)?;
    assert!(rt; out.as_str() == "00,21,/01");
    fresh_assignment_laws();
    Ok(())
}
