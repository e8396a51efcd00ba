ghost use Rattle.std.specs.Prelude.{◌≡◌, ◌/◌, ◌<◌, ◌≤◌, length, IfOk, OnOk, IfSome};
ghost use Rattle.flat_form.specs.Numbering.{AtomOver};
ghost use Rattle.basic_solver.specs.Stores.{open_in};

mod cases;

use super::*;
use cases::CASES;
use flat_form::{Args, Basic, Flat};
use std::alloc::Global;
use std::test::*;
use tree_model::{NoMemory, Symbol};

// Atoms are written in five letters each: what is said, the variable, up to two arguments, and what came of it. Said is
// `=` for a variable equation, `!` for finite, `a`, `b`, `f` and `g` for names, `k`, `l` and `m` for further symbols. What
// came of it is `#` for a clash, `+` for added, `-` for not added. A letter's place in a row of eight is the variable.
fn variable(letter: u8) -> usize
    ensures { result < 8 }
{
    (letter % 8) as usize
}

fn term(alloc: Global, letters: [u8; 5], symbol: Symbol, count: usize) -> Result<Flat, NoMemory>
    requires { count ≤ 2 }
    ensures { IfOk result (AtomOver 8) }
{
    let mut args = Args::new(alloc);
    if count > 0 {
        args.push(variable(letters[2]))?;
    }
    if count > 1 {
        args.push(variable(letters[3]))?;
    }
    Ok(Flat::VarTerm(variable(letters[1]), symbol, args))
}

fn atom(alloc: Global, letters: [u8; 5]) -> Result<Flat, NoMemory>
    ensures { IfOk result (AtomOver 8) }
{
    let left = variable(letters[1]);
    match letters[0] {
        b'=' => Ok(Flat::VarVar(left, variable(letters[2]))),
        b'a' => term(alloc, letters, Symbol::Named(0), 0),
        b'b' => term(alloc, letters, Symbol::Named(1), 0),
        b'f' => term(alloc, letters, Symbol::Named(2), 1),
        b'g' => term(alloc, letters, Symbol::Named(3), 2),
        b'k' => term(alloc, letters, Symbol::Further(0), 0),
        b'l' => term(alloc, letters, Symbol::Further(0), 1),
        b'm' => term(alloc, letters, Symbol::Further(1), 1),
        _ => Ok(Flat::Finite(left)),
    }
}

// The i-th five letters of the text.
fn letters_at(text: &[u8], i: usize) -> [u8; 5]
    requires { i < length text.now / 5 }
{
    let at = 5 * i;
    [
        text[at],
        text[at + 1],
        text[at + 2],
        text[at + 3],
        text[at + 4],
    ]
}

fn are_equal(a: &Flat, b: &Flat) -> bool {
    match (a, b) {
        (Flat::VarVar(u, v), Flat::VarVar(x, y)) => *u == *x && *v == *y,
        (Flat::Finite(u), Flat::Finite(x)) => *u == *x,
        (Flat::VarTerm(u, f, xs), Flat::VarTerm(v, g, ys)) => {
            if *u != *v || *f != *g || xs.len() != ys.len() {
                return false;
            }
            for i in 0..xs.len() {
                if *xs.get(i) != *ys.get(i) {
                    return false;
                }
            }
            true
        }
        _ => false,
    }
}

// Whether the list has these atoms.
fn is_list(alloc: Global, list: &Basic, text: &[u8]) -> Result<bool, NoMemory> {
    let count = text.len() / 5;
    if list.len() != count {
        return Ok(false);
    }
    for i in 0..count {
        let expected = atom(alloc, letters_at(text, i))?;
        if !are_equal(list.get(i), &expected) {
            return Ok(false);
        }
    }
    Ok(true)
}

// Whether the answer is the one that the letter stands for.
fn is_answer(answer: Asserted, letter: u8) -> bool {
    match answer {
        Asserted::Clash => letter == b'#',
        Asserted::Kept { added: true } => letter == b'+',
        Asserted::Kept { added: false } => letter == b'-',
    }
}

// Asserts an atom. Whether this came of it.
fn answers(store: &mut Store, atom: &Flat, letter: u8) -> Result<bool, NoMemory>
    requires over { AtomOver 8 atom.now }
    requires enough { 8 ≤ open_in store.old.scopes }
    ensures enough { OnOk result (8 ≤ open_in store.new.scopes) }
    ensures scopes { OnOk result (length store.new.scopes ≡ length store.old.scopes) }
{
    let answer = store.assert(atom)?;
    Ok(is_answer(answer, letter))
}

// Asserts the atoms. Whether that came of it.
fn all_answer(alloc: Global, store: &mut Store, text: &[u8]) -> Result<bool, NoMemory>
    requires enough { 8 ≤ open_in store.old.scopes }
    ensures enough { OnOk result (8 ≤ open_in store.new.scopes) }
    ensures scopes { OnOk result (length store.new.scopes ≡ length store.old.scopes) }
{
    let mut as_expected = true;
    for i in 0..text.len() / 5 {
        let letters = letters_at(text, i);
        let atom = atom(alloc, letters)?;
        if !answers(store, &atom, letters[4])? {
            as_expected = false;
        }
    }
    Ok(as_expected)
}

// A store that was asserted the first atoms, and the further ones in a second scope, where this has the outcomes told.
fn in_two_scopes(alloc: Global, lower: &[u8], top: &[u8]) -> Result<Option<Store>, NoMemory>
    ensures { IfOk result (λ found. IfSome found (λ store. 1 < length store.scopes)) }
{
    let mut store = Store::new(alloc, 8)?;
    if !all_answer(alloc, &mut store, lower)? {
        return Ok(None);
    }
    store.push(0)?;
    if !all_answer(alloc, &mut store, top)? {
        return Ok(None);
    }
    Ok(Some(store))
}

// Whether so asserted the atoms have this solved form, and the second scope adds that.
fn is_solved_so(
    alloc: Global,
    lower: &[u8],
    top: &[u8],
    form: &[u8],
    extra: &[u8],
) -> Result<bool, NoMemory> {
    let Some(store) = in_two_scopes(alloc, lower, top)? else {
        return Ok(false);
    };
    let basic = store.basic(alloc)?;
    let more = store.extra(alloc)?;
    Ok(is_list(alloc, &basic, form)? && is_list(alloc, &more, extra)?)
}

// Whether so asserted, and without the second scope again, the atoms have this solved form.
fn is_left_so(alloc: Global, lower: &[u8], top: &[u8], form: &[u8]) -> Result<bool, NoMemory> {
    let Some(mut store) = in_two_scopes(alloc, lower, top)? else {
        return Ok(false);
    };
    store.pop();
    let basic = store.basic(alloc)?;
    is_list(alloc, &basic, form)
}

// The four parts of a row.
fn parts(row: &str) -> Option<(&str, &str, &str, &str)> {
    let (lower, rest) = row.split_once("/")?;
    let (top, rest) = rest.split_once("/")?;
    let (form, extra) = rest.split_once("/")?;
    Some((lower, top, form, extra))
}

#[test]
fn outcomes_are_those_of_a_slow_model(rt: HostRuntime) -> Result<(), Fail> {
    for row in CASES.lines() {
        let (lower, top, form, extra) = parts(row).ok_or("a row has four parts")?;
        let right = is_solved_so(
            rt.alloc(),
            lower.as_bytes(),
            top.as_bytes(),
            form.as_bytes(),
            extra.as_bytes(),
        )?;
        assert!(rt; right, "{row}");
    }
    Ok(())
}

#[test]
fn a_scope_that_is_given_up_says_nothing(rt: HostRuntime) -> Result<(), Fail> {
    assert!(rt; is_left_so(rt.alloc(), b"fHA.+", b"aH..#!H..+", b"fHA..")?);
    Ok(())
}
