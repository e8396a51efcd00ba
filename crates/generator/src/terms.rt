// Writes drawn terms.
ghost use Rattle.std.specs.Prelude.{OnOk, string_bytes};
ghost use Rattle.formula_printer.specs.Texts.{term_text};
ghost use Rattle.generator.specs.Drawing.{Writes};
ghost use Rattle.generator.specs.Generated.{drawn_variable, drawn_leaf, drawn_term};

use crate::writing::push;
use draws::Draws;
use lists::NoMemory;

pub(crate) fn write_variable(draws: &mut Draws, text: &mut String) -> Result<(), NoMemory>
    ensures { OnOk result (Writes (λ x. x) drawn_variable draws.old (string_bytes text.old) draws.new (string_bytes text.new)) }
{
    match draws.draw(3) {
        0 => push(text, "X"),
        1 => push(text, "Y"),
        _ => push(text, "Z"),
    }
}

fn write_leaf(draws: &mut Draws, text: &mut String) -> Result<(), NoMemory>
    ensures { OnOk result (Writes term_text drawn_leaf draws.old (string_bytes text.old) draws.new (string_bytes text.new)) }
{
    match draws.draw(4) {
        0 => push(text, "X"),
        1 => push(text, "Y"),
        2 => push(text, "Z"),
        _ => push(text, "a"),
    }
}

pub(crate) fn write_term(draws: &mut Draws, text: &mut String) -> Result<(), NoMemory>
    ensures { OnOk result (Writes term_text drawn_term draws.old (string_bytes text.old) draws.new (string_bytes text.new)) }
{
    match draws.draw(6) {
        0 => push(text, "X"),
        1 => push(text, "Y"),
        2 => push(text, "Z"),
        3 => push(text, "a"),
        4 => {
            push(text, "f(")?;
            write_leaf(draws, text)?;
            push(text, ")")
        }
        _ => {
            push(text, "g(")?;
            write_leaf(draws, text)?;
            push(text, ", ")?;
            write_leaf(draws, text)?;
            push(text, ")")
        }
    }
}
