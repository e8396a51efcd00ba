// Writes drawn formulas.
ghost use Rattle.std.specs.Prelude.{OnOk, string_bytes};
ghost use Rattle.formula_printer.specs.Texts.{text_of};
ghost use Rattle.generator.specs.Drawing.{Writes};
ghost use Rattle.generator.specs.Generated.{drawn_atom, drawn_formula};

use crate::terms::{write_term, write_variable};
use crate::writing::push;
use draws::Draws;
use lists::NoMemory;

fn write_atom(draws: &mut Draws, text: &mut String) -> Result<(), NoMemory>
    ensures { OnOk result (Writes text_of drawn_atom draws.old (string_bytes text.old) draws.new (string_bytes text.new)) }
{
    match draws.draw(3) {
        0 => {
            write_term(draws, text)?;
            push(text, " = ")?;
            write_term(draws, text)
        }
        1 => {
            write_term(draws, text)?;
            push(text, " != ")?;
            write_term(draws, text)
        }
        _ => {
            push(text, "finite(")?;
            write_term(draws, text)?;
            push(text, ")")
        }
    }
}

pub(crate) fn write_formula(
    depth: u32,
    draws: &mut Draws,
    text: &mut String,
) -> Result<(), NoMemory>
    ensures { OnOk result (Writes text_of (drawn_formula depth) draws.old (string_bytes text.old) draws.new (string_bytes text.new)) }
{
    if depth == 0 {
        return write_atom(draws, text);
    }
    match draws.draw(6) {
        0 => write_atom(draws, text),
        1 => {
            push(text, "~(")?;
            write_formula(depth - 1, draws, text)?;
            push(text, ")")
        }
        2 => {
            push(text, "(")?;
            write_formula(depth - 1, draws, text)?;
            push(text, ") & (")?;
            write_formula(depth - 1, draws, text)?;
            push(text, ")")
        }
        3 => {
            push(text, "(")?;
            write_formula(depth - 1, draws, text)?;
            push(text, ") | (")?;
            write_formula(depth - 1, draws, text)?;
            push(text, ")")
        }
        4 => {
            push(text, "exists ")?;
            write_variable(draws, text)?;
            push(text, ": (")?;
            write_formula(depth - 1, draws, text)?;
            push(text, ")")
        }
        _ => {
            push(text, "forall ")?;
            write_variable(draws, text)?;
            push(text, ": (")?;
            write_formula(depth - 1, draws, text)?;
            push(text, ")")
        }
    }
}
