// Statements are decided, and their answers written.
ghost use Rattle.std.specs.Prelude.{◌≤◌, IfOk, length, string_bytes};
ghost use Rattle.formula_ast.specs.WellFormed.{IsWellFormed};
ghost use Rattle.game_library.specs.Entries.{AreRight};
ghost use Rattle.answer_texts.specs.Answered.{Answered};
ghost use Rattle.answer_texts.specs.Given.{GivenLists};

use crate::wording::{false_line, open_text, true_line};
use decision::{Answer, decide_by};
use flattening::Solved;
use formula_ast::File;
use lists::NoMemory;
use normal_form::Engine;
use std::alloc::Global;

/// The text of a right answer of the statement with this number, counted from 1. The table of solved predicates and wins
/// gets what it lacks.
pub fn answer<E: Engine>(
    alloc: Global,
    engine: &mut E,
    file: &File,
    number: usize,
    table: &mut Solved,
) -> Result<String, NoMemory>
    requires first { 1 ≤ number }
    requires within { number ≤ length file.now.solves }
    requires file { IsWellFormed file.now }
    requires table { AreRight E.gives file.now table.old }
    ensures table { AreRight E.gives file.now table.new }
    ensures answered { IfOk result (λ text. Answered (GivenLists E.gives) file.now number (string_bytes text)) }
{
    let s = file.solves.get(number - 1);
    match decide_by(alloc, engine, file, s, table)? {
        Answer::True => true_line(alloc, number),
        Answer::False => false_line(alloc, number),
        Answer::Open {
            formula,
            complement,
            holds,
            fails,
        } => open_text(
            alloc,
            &file.signature,
            number,
            &formula,
            &complement,
            &holds,
            &fails,
        ),
    }
}
