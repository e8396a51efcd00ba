// Writes the file.
ghost use Rattle.std.specs.Prelude.{◌≡◌, ◌≤◌, IfOk, OnOk, string_bytes};
ghost use Rattle.written_files.specs.Files.{file_text};
ghost use Rattle.generator.specs.Drawing.{Writes};
ghost use Rattle.generator.specs.Generated.{drawn_formula, question_text, generated};

use crate::formulas::write_formula;
use crate::writing::push;
use draws::Draws;
use lists::NoMemory;
use std::alloc::Global;

fn write_question(draws: &mut Draws, text: &mut String) -> Result<(), NoMemory>
    ensures { OnOk result (Writes question_text (drawn_formula 3) draws.old (string_bytes text.old) draws.new (string_bytes text.new)) }
{
    push(text, "solve ")?;
    write_formula(3, draws, text)?;
    push(text, ".\n")
}

/// The text of a file of so many questions: the same number gives the same text.
pub fn generate(alloc: Global, questions: u32) -> Result<String, NoMemory>
    requires { questions ≤ 1000 }
    ensures { IfOk result (λ text. string_bytes text ≡ file_text (generated questions)) }
{
    let mut text = String::new(alloc);
    let mut draws = Draws::new(questions as u64);
    push(&mut text, "symbol a/0, f/1, g/2.\n")?;
    for _ in 0..questions {
        write_question(&mut draws, &mut text)?;
    }
    Ok(text)
}
