ghost use Rattle.std.specs.Prelude.{◌≤◌, length};
ghost use Rattle.formula_ast.specs.WellFormed.{IsWellFormed};

use super::*;
use formula_ast::{File, Names, Statement, free_variables};
use formula_reader::read_file;
use lists::{Copied, NoMemory};
use normal_form::PlainEngine;
use signature::Signature;
use std::alloc::Global;
use std::process::Abort;
use std::test::Fail;
use tree_model::{Assignment, same};

// The names of the free variables, by first occurrence.
fn free_names(alloc: Global, s: &Statement) -> Result<Names, NoMemory> {
    let mut found = Names::new(alloc);
    for rank in free_variables(alloc, &s.body)?.as_slice() {
        if *rank < s.names.len() {
            found.push(s.names.get(*rank).copy(alloc)?)?;
        }
    }
    Ok(found)
}

// The first names of the statement are these, and no other variable stands free in it.
fn is_over(alloc: Global, names: &Names, s: &Statement) -> Result<bool, NoMemory> {
    for rank in free_variables(alloc, &s.body)?.as_slice() {
        if *rank >= names.len() {
            return Ok(false);
        }
    }
    for i in 0..names.len() {
        if i >= s.names.len() || s.names.get(i).as_str() != names.get(i).as_str() {
            return Ok(false);
        }
    }
    Ok(true)
}

// It gives so many variables trees, over the signature.
fn is_for(signature: &Signature, count: usize, a: &Assignment) -> bool {
    a.roots().len() == count && signature.fits(a.nodes())
}

// Some variable has another tree in the one than in the other.
fn are_apart(alloc: Global, a: &Assignment, b: &Assignment) -> Result<bool, NoMemory> {
    for i in 0..a.roots().len() {
        if i < b.roots().len() && !same(alloc, &a.tree(alloc, i)?, &b.tree(alloc, i)?)? {
            return Ok(true);
        }
    }
    Ok(false)
}

// `open`, or what is wrong with the parts of an open answer.
fn word_of_open(
    alloc: Global,
    signature: &Signature,
    names: &Names,
    solved: (&Statement, &Statement),
    trees: (&Assignment, &Assignment),
) -> Result<&'static str, NoMemory> {
    let count = names.len();
    if !is_over(alloc, names, solved.0)? || !is_over(alloc, names, solved.1)? {
        return Ok("open, over other names");
    }
    if !is_for(signature, count, trees.0) || !is_for(signature, count, trees.1) {
        return Ok("open, with other trees");
    }
    if !are_apart(alloc, trees.0, trees.1)? {
        return Ok("open, with the same trees twice");
    }
    Ok("open")
}

fn word_of(
    alloc: Global,
    signature: &Signature,
    names: &Names,
    answer: &Answer,
) -> Result<&'static str, NoMemory> {
    match answer {
        Answer::True => Ok("true"),
        Answer::False => Ok("false"),
        Answer::Open {
            formula,
            complement,
            holds,
            fails,
        } => {
            word_of_open(
                alloc,
                signature,
                names,
                (formula, complement),
                (holds, fails),
            )
        }
    }
}

// What is answered of the first statement, in a word.
fn judged(alloc: Global, file: &File) -> Result<&'static str, NoMemory>
    requires well_formed { IsWellFormed file.now }
    requires one { 1 ≤ length file.now.solves }
{
    let s = file.solves.get(0);
    let names = free_names(alloc, s)?;
    let answer = decide(alloc, &mut PlainEngine, file, s)?;
    word_of(alloc, &file.signature, &names, &answer)
}

fn judged_text(alloc: Global, text: &str) -> Result<&'static str, NoMemory> {
    match read_file(alloc, text.as_bytes()) {
        Ok(file) => {
            if file.solves.len() >= 1 {
                judged(alloc, &file)
            } else {
                Ok("no statement")
            }
        }
        Err(_) => Ok("no file"),
    }
}

const DECLARED: &str = "symbol f/1, g/2, a/0, b/0. pred up(X, Y) := X = f(Y).";

// Each of the statements, a row for each, is answered so.
fn are_answered(rt: &impl Abort, alloc: Global, rows: &str, wanted: &str) -> Result<(), Fail> {
    for row in rows.lines() {
        let text = format!(in alloc; "{DECLARED} solve {row}.")?;
        assert_eq!(rt; judged_text(alloc, &text)?, wanted, "{row}");
    }
    Ok(())
}

const VALID: &str = "\
true
forall X: X = X
exists X: X = f(X)
forall X Y: (X = f(X) & Y = f(f(Y)) -> X = Y)
forall X: exists Y: Y != X
$0 != $0(X)
finite(X) -> finite(f(X))
X = f(Y) -> exists Z: X = f(Z)
g(X, Y) = g(Y, X) <-> X = Y
~(X = f(X) & finite(X))
up(f(X), X)
win(up, 1, f(a))
forall X: (win(up, 1, X) -> exists Y: X = f(Y))";

#[test]
fn what_always_holds_is_true(rt: HostRuntime) -> Result<(), Fail> {
    are_answered(&rt, rt.alloc(), VALID, "true")
}

const UNSATISFIABLE: &str = "\
false
exists X: X != X
forall X: X = a
exists X: (X = f(X) & finite(X))
exists X: forall Y: X = Y
f(X) = a
f(X) = g(X, Y)
X = f(X) & X = g(X, X)
X = f(Y) & Y = f(X) & X != Y
finite(Y) & X = f(X) & X = Y
up(X, X) & finite(X)
win(up, 1, a)
win(up, 2, f(f(X)))  & ~exists Y: up(X, Y)";

#[test]
fn what_never_holds_is_false(rt: HostRuntime) -> Result<(), Fail> {
    are_answered(&rt, rt.alloc(), UNSATISFIABLE, "false")
}

const OPEN: &str = "\
X = a
X != Y
finite(X)
~finite(g(X, Y))
X = f(X)
X = a | X = b
exists Y: X = f(Y)
forall Y: X != f(Y)
exists Y: (X = g(Y, Z) & Y != Z)
X = $3 | X = $0(Y)
X = f(Y) -> Y = a
exists Z: (X = g(Z, Z) & finite(Y))
up(X, V0)
win(up, 1, X)";

#[test]
fn what_may_hold_is_open(rt: HostRuntime) -> Result<(), Fail> {
    are_answered(&rt, rt.alloc(), OPEN, "open")
}
