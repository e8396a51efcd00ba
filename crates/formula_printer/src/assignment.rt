//! The text of an assignment.
ghost use Rattle.std.specs.Prelude.{◌≡◌, ◌++◌, ◌<◌, ◌≤◌, length, take, map, get_or, codes, All, string_bytes, IfOk, OnOk};
ghost use Rattle.std.specs.List.{join_by};
ghost use Rattle.tree_model.specs.Signatures.{Fits};
ghost use Rattle.formula_ast.specs.declared.term.Term.TheVariants as term;
ghost use Rattle.formula_ast.specs.Forms.{always};
ghost use Rattle.formula_grammar.specs.Written.{headed};
ghost use Rattle.formula_printer.specs.Assignments.{assignment_form, assignment_names, equations_of};
ghost use Rattle.formula_printer.specs.Printable.{AreNames, NodeHasWords};
ghost use Rattle.formula_printer.specs.Reads.{ReadsBack};
ghost use Rattle.formula_printer.specs.Texts.{names_text, term_text, text_of};
ghost use Rattle.formula_printer.specs.Writing.{symbol_head, written, written_terms};

use crate::bound::all_names;
use crate::words::{write_before, write_symbol, write_text, write_variable};
use formula_ast::Names;
use lists::NoMemory;
use signature::Signature;
use std::alloc::Global;
use tree_model::{Assignment, Node};

// Writes the symbol of a node and the names of its children.
fn write_application(
    sig: &Signature,
    names: &Names,
    node: &Node,
    out: &mut String,
) -> Result<(), NoMemory>
    requires { NodeHasWords sig.now (length names.now) node.now }
    ensures { OnOk result (string_bytes out.new ≡ string_bytes out.old
        ++ term_text (headed (symbol_head sig.now node.now.symbol) (written_terms sig.now names.now (map (λ child. term.Var child) node.now.children)))) }
{
    write_symbol(sig, node.symbol, out)?;
    if node.children.len() == 0 {
        return Ok(());
    }
    for (i, &child) in node.children.as_slice().iter().enumerate() {
        write_before("(", ", ", i, out)?;
        write_variable(names, child, out)?;
    }
    write_text(")", out)
}

// Writes the equation of a place: that of a node, or behind the nodes that of a variable.
fn write_equation(
    sig: &Signature,
    names: &Names,
    a: &Assignment,
    i: usize,
    out: &mut String,
) -> Result<(), NoMemory>
    requires place { i < length (equations_of a.now) }
    requires few { length (equations_of a.now) ≤ length names.now }
    requires nodes { All (NodeHasWords sig.now (length names.now)) a.now.nodes }
    requires roots { All (λ root. root < length names.now) a.now.roots }
    ensures { OnOk result (string_bytes out.new ≡ string_bytes out.old ++ text_of (written sig.now names.now (get_or (equations_of a.now) i always))) }
{
    write_variable(names, i, out)?;
    write_text(" = ", out)?;
    let nodes = a.nodes();
    if i < nodes.len() {
        write_application(sig, names, &nodes[i], out)
    } else {
        write_variable(names, *a.roots().get(i - nodes.len()), out)
    }
}

// Writes the equations of all places, with an `&` between each two.
fn write_equations(
    sig: &Signature,
    names: &Names,
    a: &Assignment,
    out: &mut String,
) -> Result<(), NoMemory>
    requires all { length (equations_of a.now) ≡ length names.now }
    requires nodes { All (NodeHasWords sig.now (length names.now)) a.now.nodes }
    requires roots { All (λ root. root < length names.now) a.now.roots }
    ensures { OnOk result (string_bytes out.new ≡ string_bytes out.old ++ join_by (λ f. text_of (written sig.now names.now f)) (codes " & ") (equations_of a.now)) }
{
    for i in 0..names.len() {
        write_before("", " & ", i, out)?;
        write_equation(sig, names, a, i, out)?;
    }
    Ok(())
}

// Writes the first n names, each behind a blank.
fn write_names(names: &Names, n: usize, out: &mut String) -> Result<(), NoMemory>
    requires { n ≤ length names.now }
    ensures { OnOk result (string_bytes out.new ≡ string_bytes out.old ++ names_text (take n names.now)) }
{
    for i in 0..n {
        write_text(" ", out)?;
        write_variable(names, i, out)?;
    }
    Ok(())
}

/// The text of an assignment, where each variable has the name at its place: `exists V0 V1: (V0 = f(V1) & .. & X = V0 & ..)`,
/// with one equation for each node, in order, and then one for each variable. The names of the nodes are the first of `V0`,
/// `V1`, and so on that are no names of variables.
pub fn print_assignment(
    alloc: Global,
    sig: &Signature,
    names: &Names,
    a: &Assignment,
) -> Result<String, NoMemory>
    requires some { 0 < length names.now }
    requires names { AreNames sig.now names.now }
    requires roots { length a.now.roots ≡ length names.now }
    requires fits { Fits sig.now a.now.nodes }
    ensures text { IfOk result (λ text. string_bytes text ≡ text_of (written sig.now (assignment_names names.now a.now) (assignment_form a.now))) }
    ensures reads { IfOk result (λ text. ReadsBack sig.now (assignment_names names.now a.now) (string_bytes text) (assignment_form a.now)) }
{
    // that the names of a signature are distinct is told by its calls
    let _ = sig.len();
    let nodes = a.nodes();
    let all = all_names(alloc, names, nodes.len())?;
    let mut text = String::new(alloc);
    write_text("exists", &mut text)?;
    write_names(&all, nodes.len(), &mut text)?;
    write_text(": (", &mut text)?;
    write_equations(sig, &all, a, &mut text)?;
    write_text(")", &mut text)?;
    Ok(text)
}
