ghost use Rattle.std.specs.Prelude.{ℕ, ◌≡◌, ◌/◌, ◌<◌, ◌≤◌, ◌+◌, length, IfOk};
ghost use Rattle.flat_form.specs.Numbering.{AtomOver, BasicOver};

mod cases;

use super::*;
use cases::{CASES, Case};
use flat_form::{Args, Basic, Flat, Part, is_solved};
use lists::{List, NoMemory};
use std::alloc::Global;
use std::test::*;
use tree_model::Symbol;

// Atoms are written in five letters each: what is said, the variable, up to three others. Said is `=` for a variable
// equation, `!` for finite, and a number of arguments for a term. A letter's place in a row of eight is the variable.
fn variable_of(letter: u8) -> usize
    ensures { result < 8 }
{
    (letter % 8) as usize
}

fn term(alloc: Global, letters: [u8; 5], count: usize) -> Result<Flat, NoMemory>
    requires { count ≤ 3 }
    ensures { IfOk result (AtomOver 8) }
{
    let mut args = Args::new(alloc);
    if count > 0 {
        args.push(variable_of(letters[2]))?;
    }
    if count > 1 {
        args.push(variable_of(letters[3]))?;
    }
    if count > 2 {
        args.push(variable_of(letters[4]))?;
    }
    Ok(Flat::VarTerm(variable_of(letters[1]), Symbol::Named(count), args))
}

fn atom(alloc: Global, letters: [u8; 5]) -> Result<Flat, NoMemory>
    ensures { IfOk result (AtomOver 8) }
{
    let left = variable_of(letters[1]);
    match letters[0] {
        b'=' => Ok(Flat::VarVar(left, variable_of(letters[2]))),
        b'0' => term(alloc, letters, 0),
        b'1' => term(alloc, letters, 1),
        b'2' => term(alloc, letters, 2),
        b'3' => term(alloc, letters, 3),
        _ => Ok(Flat::Finite(left)),
    }
}

// The i-th five letters of the text.
fn letters_at(text: &[u8], i: usize) -> [u8; 5]
    requires { i < length text.now / 5 }
{
    let at = 5 * i;
    [
        text[at],
        text[at + 1],
        text[at + 2],
        text[at + 3],
        text[at + 4],
    ]
}

// The atoms of the text.
fn list(alloc: Global, text: &[u8]) -> Result<Basic, NoMemory>
    ensures { IfOk result (BasicOver 8) }
{
    let mut atoms = Basic::new(alloc);
    for i in 0..text.len() / 5 {
        atoms.push(atom(alloc, letters_at(text, i))?)?;
    }
    Ok(atoms)
}

// Whether the variables are those of the letters.
fn are_letters(variables: &List<usize>, text: &str) -> bool {
    let text = text.as_bytes();
    if variables.len() != text.len() {
        return false;
    }
    for i in 0..text.len() {
        if variables.as_slice()[i] != variable_of(text[i]) {
            return false;
        }
    }
    true
}

// Whether the outer variables of the case, whose scope ends at eight, are split as it says.
fn is_split_so(alloc: Global, free: usize, case: &Case) -> Result<bool, NoMemory>
    requires { free ≤ 8 }
{
    let atoms = list(alloc, case.atoms.as_bytes())?;
    if !is_solved(&atoms) {
        return Ok(false);
    }
    let found = split(alloc, free, 8 - free, &atoms)?;
    Ok(
        are_letters(&found.needed, case.needed)
            && are_letters(&found.idle, case.idle)
            && are_letters(&found.determined, case.determined),
    )
}

#[test]
fn outer_variables_are_split_as_a_slow_model_does(rt: HostRuntime) -> Result<(), Fail> {
    for case in CASES.as_slice() {
        assert!(rt; case.free <= 8);
        assert!(rt; is_split_so(rt.alloc(), case.free, case)?, "{}", case.atoms);
    }
    Ok(())
}

#[test]
fn a_wrong_list_is_told_apart(rt: HostRuntime) -> Result<(), Fail> {
    let case = Case {
        atoms: "1HA..1BC..",
        needed: "B",
        idle: "CDEFG",
        determined: "A",
        free: 1,
    };
    assert!(rt; !is_split_so(rt.alloc(), 1, &case)?);
    Ok(())
}

// The equation of a variable with a term of one variable.
fn link(alloc: Global, u: usize, v: usize) -> Result<Flat, NoMemory>
    ensures { IfOk result (λ atom. (n : ℕ) → u < n → v < n → AtomOver n atom) }
{
    let mut args = Args::new(alloc);
    args.push(v)?;
    Ok(Flat::VarTerm(u, Symbol::Named(1), args))
}

#[test]
fn each_list_has_one_of_three(rt: HostRuntime) -> Result<(), Fail> {
    let mut atoms = Basic::new(rt.alloc());
    atoms.push(link(rt.alloc(), 0, 1)?)?;
    atoms.push(link(rt.alloc(), 2, 3)?)?;
    assert!(rt; is_solved(&atoms));
    let found = split(rt.alloc(), 1, 3, &atoms)?;
    assert!(rt; are_letters(&found.needed, "A"));
    assert!(rt; are_letters(&found.idle, "C"));
    assert!(rt; are_letters(&found.determined, "B"));
    Ok(())
}

// The first of `count` variables leads along terms to the last, this to the one before it, and so on.
fn chain(alloc: Global, count: usize) -> Result<Basic, NoMemory>
    requires { 2 ≤ count }
    ensures { IfOk result (BasicOver count) }
{
    let mut atoms = Basic::new(alloc);
    atoms.push(link(alloc, 0, count - 1)?)?;
    for i in 2..count {
        atoms.push(link(alloc, i, i - 1)?)?;
    }
    Ok(atoms)
}

#[test]
fn all_of_a_long_chain_is_reached(rt: HostRuntime) -> Result<(), Fail> {
    let atoms = chain(rt.alloc(), 40)?;
    let marks = reached(rt.alloc(), 40, 1, &atoms)?;
    for &mark in marks.as_slice() {
        assert!(rt; mark);
    }
    let none = reached(rt.alloc(), 40, 0, &atoms)?;
    for &mark in none.as_slice() {
        assert!(rt; !mark);
    }
    Ok(())
}

#[test]
fn a_part_mentions_its_variables_alone(rt: HostRuntime) -> Result<(), Fail> {
    let basic = list(rt.alloc(), b"=BA..3DBEF!G...")?;
    let part = Part { inner: 3, basic };
    for &v in &[1, 2, 4, 5, 6, 7] {
        assert!(rt; mentions(&part, v), "{v}");
    }
    for &v in &[0, 3, 8, 100] {
        assert!(rt; !mentions(&part, v), "{v}");
    }
    Ok(())
}
