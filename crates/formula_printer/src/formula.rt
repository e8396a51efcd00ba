//! The text of a formula.
ghost use Rattle.std.specs.Prelude.{◌≡◌, ◌++◌, ◌<◌, List, length, codes, string_bytes, IfOk, OnOk};
ghost use Rattle.tree_model.specs.Signatures as signatures;
ghost use Rattle.formula_ast.specs.Forms.{form_of};
ghost use Rattle.formula_grammar.specs.Grammar as grammar;
ghost use Rattle.formula_grammar.specs.Written.{Text};
ghost use Rattle.formula_printer.specs.Printable.{AreNames, FormFits};
ghost use Rattle.formula_printer.specs.Reads.{ReadsBack};
ghost use Rattle.formula_printer.specs.Steps.{behind_quantifier, quantifier_of};
ghost use Rattle.formula_printer.specs.Texts.{text_of};
ghost use Rattle.formula_printer.specs.Writing.{placed, quantify, text_at, written};

use crate::terms::{write_arguments, write_closed, write_pair, write_win};
use crate::words::{write_name, write_text, write_variable};
use formula_ast::{Formula, Names};
use lists::NoMemory;
use signature::Signature;
use std::alloc::Global;

// How strongly what is written for a formula holds together.
fn level(f: &Formula) -> usize
    ensures { (σ : signatures.Signature) (names : List Text) → result ≡ grammar.level (written σ names (form_of f.now)) }
{
    match f {
        Formula::Iff(_, _) => 1,
        Formula::Imp(_, _) => 2,
        Formula::Or(_, _) => 3,
        Formula::And(_, _) => 4,
        _ => 5,
    }
}

#[derive(Clone, Copy, Debug, PartialEq, Eq, Drop)]
enum Quantifier {
    Exists,
    Forall,
}

// Writes a formula.
#[cycle(formula)]
fn write_formula(
    sig: &Signature,
    names: &Names,
    f: &Formula,
    out: &mut String,
) -> Result<(), NoMemory>
    requires { FormFits sig.now (length names.now) (form_of f.now) }
    ensures { OnOk result (string_bytes out.new ≡ string_bytes out.old ++ text_of (written sig.now names.now (form_of f.now))) }
{
    match f {
        Formula::True => write_text("true", out),
        Formula::False => write_text("false", out),
        Formula::Eq(t, u) => write_pair(sig, names, t, " = ", u, out),
        Formula::Differ(t, u) => write_pair(sig, names, t, " != ", u, out),
        Formula::Finite(t) => {
            write_text("finite(", out)?;
            write_closed(sig, names, t, out)
        }
        Formula::Call(p, ts) => {
            write_name(sig, *p, out)?;
            write_arguments(sig, names, ts, out)
        }
        Formula::Win(p, k, t) => {
            write_win(sig, *p, *k, out)?;
            write_closed(sig, names, t, out)
        }
        Formula::Not(f) => {
            write_text("~", out)?;
            write_operand(sig, names, 5, f.get(), out)
        }
        Formula::And(f, g) => {
            write_left(sig, names, 4, f.get(), " & ", out)?;
            write_operand(sig, names, 5, g.get(), out)
        }
        Formula::Or(f, g) => {
            write_left(sig, names, 3, f.get(), " | ", out)?;
            write_operand(sig, names, 4, g.get(), out)
        }
        Formula::Imp(f, g) => {
            write_left(sig, names, 3, f.get(), " -> ", out)?;
            write_operand(sig, names, 2, g.get(), out)
        }
        Formula::Iff(f, g) => {
            write_left(sig, names, 2, f.get(), " <-> ", out)?;
            write_operand(sig, names, 2, g.get(), out)
        }
        Formula::Exists(x, f) => {
            write_text("exists", out)?;
            write_bound(sig, names, Quantifier::Exists, *x, f.get(), out)
        }
        Formula::Forall(x, f) => {
            write_text("forall", out)?;
            write_bound(sig, names, Quantifier::Forall, *x, f.get(), out)
        }
    }
}

// Writes a formula at a place that asks for a level.
#[cycle(formula)]
fn write_operand(
    sig: &Signature,
    names: &Names,
    asked: usize,
    f: &Formula,
    out: &mut String,
) -> Result<(), NoMemory>
    requires { FormFits sig.now (length names.now) (form_of f.now) }
    ensures { OnOk result (string_bytes out.new ≡ string_bytes out.old ++ text_of (placed asked (written sig.now names.now (form_of f.now)))) }
{
    if level(f) < asked {
        write_text("(", out)?;
        write_formula(sig, names, f, out)?;
        write_text(")", out)
    } else {
        write_formula(sig, names, f, out)
    }
}

// Writes the left side of an operator, and the operator.
#[cycle(formula)]
fn write_left(
    sig: &Signature,
    names: &Names,
    asked: usize,
    f: &Formula,
    sign: &str,
    out: &mut String,
) -> Result<(), NoMemory>
    requires { FormFits sig.now (length names.now) (form_of f.now) }
    ensures { OnOk result (string_bytes out.new ≡ string_bytes out.old ++ text_of (placed asked (written sig.now names.now (form_of f.now))) ++ sign.now) }
{
    write_operand(sig, names, asked, f, out)?;
    write_text(sign, out)
}

// Writes a variable of a quantifier and what stands behind it.
#[cycle(formula)]
fn write_bound(
    sig: &Signature,
    names: &Names,
    quantifier: Quantifier,
    x: usize,
    f: &Formula,
    out: &mut String,
) -> Result<(), NoMemory>
    requires variable { x < length names.now }
    requires body { FormFits sig.now (length names.now) (form_of f.now) }
    ensures { OnOk result (string_bytes out.new ≡ string_bytes out.old
        ++ behind_quantifier (quantify (quantifier_of quantifier) (text_at names.now x) (placed 5 (written sig.now names.now (form_of f.now))))) }
{
    write_text(" ", out)?;
    write_variable(names, x, out)?;
    match quantifier {
        Quantifier::Exists => match f {
            Formula::Exists(y, g) => write_bound(sig, names, quantifier, *y, g.get(), out),
            _ => write_body(sig, names, f, out),
        },
        Quantifier::Forall => match f {
            Formula::Forall(y, g) => write_bound(sig, names, quantifier, *y, g.get(), out),
            _ => write_body(sig, names, f, out),
        },
    }
}

// Writes a colon and the body of a quantifier.
#[cycle(formula)]
fn write_body(sig: &Signature, names: &Names, f: &Formula, out: &mut String) -> Result<(), NoMemory>
    requires { FormFits sig.now (length names.now) (form_of f.now) }
    ensures { OnOk result (string_bytes out.new ≡ string_bytes out.old ++ codes ": " ++ text_of (placed 5 (written sig.now names.now (form_of f.now)))) }
{
    write_text(": ", out)?;
    write_operand(sig, names, 5, f, out)
}

/// The text of a formula, where each variable has the name at its place. Parentheses stand where an operand holds
/// together less strongly than its place asks for, and nowhere else; quantifiers of one kind directly inside one another
/// are written as one.
pub fn print_formula(
    alloc: Global,
    sig: &Signature,
    names: &Names,
    f: &Formula,
) -> Result<String, NoMemory>
    requires names { AreNames sig.now names.now }
    requires fits { FormFits sig.now (length names.now) (form_of f.now) }
    ensures text { IfOk result (λ text. string_bytes text ≡ text_of (written sig.now names.now (form_of f.now))) }
    ensures reads { IfOk result (λ text. ReadsBack sig.now names.now (string_bytes text) (form_of f.now)) }
{
    // that the names of a signature are distinct is told by its calls
    let _ = sig.len();
    let mut text = String::new(alloc);
    write_formula(sig, names, f, &mut text)?;
    Ok(text)
}
