// The lines of an answer.
ghost use Rattle.std.specs.Prelude.{◌≡◌, ◌<◌, ◌≤◌, IfOk, codes, decimal, ◌++◌, length, string_bytes, take};
ghost use Rattle.formula_ast.specs.declared.token.TokenKind.TheVariants as k;
ghost use Rattle.formula_ast.specs.WellFormed.{AreWords, IsStatementOver};
ghost use Rattle.formula_printer.specs.Printable.{AreNames};
ghost use Rattle.formula_printer.specs.Writing.{names_of};
ghost use Rattle.tree_model.specs.Signatures.{Fits};
ghost use Rattle.answer_texts.specs.Answered as spec;
ghost use Rattle.answer_texts.specs.Answered.{open_lines};
ghost use Rattle.answer_texts.specs.Printed.{ArePrinted, IsPrintedAssignment, IsPrintedStatement};

use formula_ast::{Names, Statement};
use formula_printer::{print_assignment, print_formula};
use lists::{Copied, NoMemory};
use signature::Signature;
use std::alloc::Global;
use tree_model::Assignment;

// The line of a statement that is always satisfied.
pub(crate) fn true_line(alloc: Global, number: usize) -> Result<String, NoMemory>
    ensures { IfOk result (λ text. string_bytes text ≡ decimal number ++ codes " true\n") }
{
    Ok(format!(in alloc; "{number} true\n")?)
}

// The line of a statement that is never satisfied.
pub(crate) fn false_line(alloc: Global, number: usize) -> Result<String, NoMemory>
    ensures { IfOk result (λ text. string_bytes text ≡ decimal number ++ codes " false\n") }
{
    Ok(format!(in alloc; "{number} false\n")?)
}

// A line of an open answer.
fn line(alloc: Global, number: usize, word: &str, text: &str) -> Result<String, NoMemory>
    ensures { IfOk result (λ whole. string_bytes whole ≡ spec.line number word.now text.now) }
{
    Ok(format!(in alloc; "{number} {word} {text}\n")?)
}

// The four lines of an open answer.
fn four_lines(
    alloc: Global,
    number: usize,
    formula: &str,
    complement: &str,
    holds: &str,
    fails: &str,
) -> Result<String, NoMemory>
    ensures { IfOk result (λ text. string_bytes text ≡ open_lines number formula.now complement.now holds.now fails.now) }
{
    let first = line(alloc, number, "open", formula)?;
    let second = line(alloc, number, "else", complement)?;
    let third = line(alloc, number, "holds", holds)?;
    let fourth = line(alloc, number, "fails", fails)?;
    Ok(format!(in alloc; "{first}{second}{third}{fourth}")?)
}

// The first names.
fn front(alloc: Global, names: &Names, count: usize) -> Result<Names, NoMemory>
    requires { count ≤ length names.now }
    ensures { IfOk result (λ front. front ≡ take count names.now) }
{
    let mut front = Names::new(alloc);
    for place in 0..count {
        front.push(names.get(place).copy(alloc)?)?;
    }
    Ok(front)
}

// The text of a statement.
fn printed(alloc: Global, sig: &Signature, s: &Statement) -> Result<String, NoMemory>
    requires words { AreWords k.Name (names_of sig.now) }
    requires formed { IsStatementOver sig.now s.now }
    ensures { IfOk result (λ text. IsPrintedStatement sig.now s.now (string_bytes text)) }
{
    print_formula(alloc, sig, &s.names, &s.body)
}

// The text of an assignment.
fn assigned(
    alloc: Global,
    sig: &Signature,
    names: &Names,
    a: &Assignment,
) -> Result<String, NoMemory>
    requires some { 0 < length names.now }
    requires names { AreNames sig.now names.now }
    requires roots { length a.now.roots ≡ length names.now }
    requires fits { Fits sig.now a.now.nodes }
    ensures { IfOk result (λ text. IsPrintedAssignment sig.now names.now a.now (string_bytes text)) }
{
    print_assignment(alloc, sig, names, a)
}

// The lines of an open answer, which the statements and the assignments give. The names of the free variables are the first
// of the formula's.
pub(crate) fn open_text(
    alloc: Global,
    sig: &Signature,
    number: usize,
    formula: &Statement,
    complement: &Statement,
    holds: &Assignment,
    fails: &Assignment,
) -> Result<String, NoMemory>
    requires words { AreWords k.Name (names_of sig.now) }
    requires formula { IsStatementOver sig.now formula.now }
    requires complement { IsStatementOver sig.now complement.now }
    requires some { 0 < length holds.now.roots }
    requires enough { length holds.now.roots ≤ length formula.now.names }
    requires names { AreNames sig.now (take (length holds.now.roots) formula.now.names) }
    requires roots { length fails.now.roots ≡ length holds.now.roots }
    requires holds { Fits sig.now holds.now.nodes }
    requires fails { Fits sig.now fails.now.nodes }
    ensures { IfOk result (λ text. ArePrinted sig.now number (take (length holds.now.roots) formula.now.names) formula.now complement.now holds.now fails.now (string_bytes text)) }
{
    let names = front(alloc, &formula.names, holds.roots().len())?;
    let f = printed(alloc, sig, formula)?;
    let g = printed(alloc, sig, complement)?;
    let a = assigned(alloc, sig, &names, holds)?;
    let b = assigned(alloc, sig, &names, fails)?;
    four_lines(alloc, number, &f, &g, &a, &b)
}
