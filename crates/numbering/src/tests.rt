ghost use Rattle.std.specs.Prelude.{◌≡◌, ◌/◌, ◌<◌, ◌≤◌, length, IfOk, All};
ghost use Rattle.flat_form.specs.Numbering.{AtomOver, BasicOver, PartOver};
ghost use Rattle.flat_form.specs.Solved.{Ascends};

mod cases;

use super::*;
use cases::{ATOMS, COUNT, FIRSTS, NUMBERED, ORDERS};
use flat_form::{Args, Basic, Flat, Part, Parts, is_same_basic, is_solved};
use lists::NoMemory;
use std::alloc::Global;
use std::test::*;
use tree_model::Symbol;

// Atoms are written in five letters each: what is said, the variable, up to three others. Said is `=` for a variable
// equation, `!` for finite, and a number of arguments for a term. A letter's place in a row of eight is the variable.
fn variable(letter: u8) -> usize
    ensures { result < 8 }
{
    (letter % 8) as usize
}

fn term(alloc: Global, letters: [u8; 5], count: usize) -> Result<Flat, NoMemory>
    requires { count ≤ 3 }
    ensures { IfOk result (AtomOver 8) }
{
    let mut args = Args::new(alloc);
    if count > 0 {
        args.push(variable(letters[2]))?;
    }
    if count > 1 {
        args.push(variable(letters[3]))?;
    }
    if count > 2 {
        args.push(variable(letters[4]))?;
    }
    Ok(Flat::VarTerm(variable(letters[1]), Symbol::Named(count), args))
}

fn atom(alloc: Global, letters: [u8; 5]) -> Result<Flat, NoMemory>
    ensures { IfOk result (AtomOver 8) }
{
    let left = variable(letters[1]);
    match letters[0] {
        b'=' => Ok(Flat::VarVar(left, variable(letters[2]))),
        b'0' => term(alloc, letters, 0),
        b'1' => term(alloc, letters, 1),
        b'2' => term(alloc, letters, 2),
        b'3' => term(alloc, letters, 3),
        _ => Ok(Flat::Finite(left)),
    }
}

// The i-th five letters of the text.
fn letters_at(text: &[u8], i: usize) -> [u8; 5]
    requires { i < length text.now / 5 }
{
    let at = 5 * i;
    [
        text[at],
        text[at + 1],
        text[at + 2],
        text[at + 3],
        text[at + 4],
    ]
}

// The atoms of the text.
fn list(alloc: Global, text: &[u8]) -> Result<Basic, NoMemory>
    ensures { IfOk result (BasicOver 8) }
{
    let mut atoms = Basic::new(alloc);
    for i in 0..text.len() / 5 {
        atoms.push(atom(alloc, letters_at(text, i))?)?;
    }
    Ok(atoms)
}

// Whether the order is that of the letters.
fn is_order(order: &[usize], text: &[u8]) -> bool {
    if order.len() != text.len() {
        return false;
    }
    for i in 0..order.len() {
        if order[i] != variable(text[i]) {
            return false;
        }
    }
    true
}

// Whether the variables are met in this order.
fn is_met_so(alloc: Global, first: usize, atoms: &[u8], order: &[u8]) -> Result<bool, NoMemory> {
    let atoms = list(alloc, atoms)?;
    if first > 8 || !is_solved(&atoms) {
        return Ok(false);
    }
    let met = met(alloc, first, 8, &atoms)?;
    Ok(is_order(met.as_slice(), order))
}

// Whether the atoms are these with new numbers.
fn is_numbered_so(alloc: Global, first: usize, atoms: &[u8], new: &[u8]) -> Result<bool, NoMemory> {
    let atoms = list(alloc, atoms)?;
    if first > 8 || !is_solved(&atoms) {
        return Ok(false);
    }
    let order = met(alloc, first, 8, &atoms)?;
    let found = number_all(alloc, first, 8, order.as_slice(), &atoms)?;
    let expected = list(alloc, new)?;
    Ok(is_same_basic(&found, &expected))
}

// Whether the part has these atoms with new numbers, where the first variables reach all.
fn is_inner_so(
    alloc: Global,
    first: usize,
    atoms: &[u8],
    order: &[u8],
    new: &[u8],
) -> Result<bool, NoMemory> {
    let basic = list(alloc, atoms)?;
    if first > 8 || !is_solved(&basic) {
        return Ok(false);
    }
    let part = Part {
        inner: 8 - first,
        basic,
    };
    let found = number_inner(alloc, first, &part)?;
    let expected = list(alloc, new)?;
    Ok(found.inner == order.len() && is_same_basic(&found.basic, &expected))
}

#[test]
fn numbers_are_those_of_a_slow_model(rt: HostRuntime) -> Result<(), Fail> {
    for i in 0..COUNT {
        let right = is_numbered_so(
            rt.alloc(),
            FIRSTS[i],
            ATOMS[i].as_bytes(),
            NUMBERED[i].as_bytes(),
        )?;
        assert!(rt; right, "case {i}");
    }
    Ok(())
}

#[test]
fn inner_numbers_are_those_of_a_slow_model(rt: HostRuntime) -> Result<(), Fail> {
    for i in 0..COUNT {
        let right = is_inner_so(
            rt.alloc(),
            FIRSTS[i],
            ATOMS[i].as_bytes(),
            ORDERS[i].as_bytes(),
            NUMBERED[i].as_bytes(),
        )?;
        assert!(rt; right, "case {i}");
    }
    Ok(())
}

#[test]
fn orders_are_those_of_a_slow_model(rt: HostRuntime) -> Result<(), Fail> {
    for i in 0..COUNT {
        let right = is_met_so(
            rt.alloc(),
            FIRSTS[i],
            ATOMS[i].as_bytes(),
            ORDERS[i].as_bytes(),
        )?;
        assert!(rt; right, "case {i}");
    }
    Ok(())
}

#[test]
fn a_wrong_order_is_told_apart(rt: HostRuntime) -> Result<(), Fail> {
    assert!(rt; is_met_so(rt.alloc(), 1, b"2HBA.2BCD.", b"BACD")?);
    assert!(rt; !is_met_so(rt.alloc(), 1, b"2HBA.2BCD.", b"ABCD")?);
    Ok(())
}

// A part with these atoms over the first variable. Where they are not solved, this gives up.
fn part(alloc: Global, atoms: &[u8]) -> Result<Part, NoMemory>
    ensures { IfOk result (λ part. PartOver 1 part × Ascends part.basic) }
{
    let basic = list(alloc, atoms)?;
    if !is_solved(&basic) {
        return Err(NoMemory);
    }
    Ok(Part { inner: 7, basic })
}

// The three parts.
fn three(alloc: Global, one: &[u8], other: &[u8], third: &[u8]) -> Result<Parts, NoMemory>
    ensures { IfOk result (All (λ part. PartOver 1 part × Ascends part.basic)) }
{
    let mut parts = Parts::new(alloc);
    for &atoms in &[one, other, third] {
        parts.push(part(alloc, atoms)?)?;
    }
    Ok(parts)
}

// How many of the three parts are left.
fn left_of(alloc: Global, one: &[u8], other: &[u8], third: &[u8]) -> Result<usize, NoMemory> {
    let parts = three(alloc, one, other, third)?;
    let found = finish(alloc, 1, parts.as_slice())?;
    Ok(found.len())
}

#[test]
fn parts_with_equal_numbers_are_kept_once(rt: HostRuntime) -> Result<(), Fail> {
    let alloc = rt.alloc();
    assert_eq!(rt; left_of(alloc, b"1HB..1BC..", b"1HE..1ED..", b"1HB..")?, 2);
    assert_eq!(rt; left_of(alloc, b"2HBC.", b"2HCB.", b"2HBB.")?, 2);
    assert_eq!(rt; left_of(alloc, b"2HBC.", b"1HA..", b"2HBC.!B...")?, 3);
    Ok(())
}
