// What is asked of a file is written: an answer of each statement, or the line that counts them.
ghost use Rattle.std.specs.Prelude.{◌≡◌, OnOk, IsErrOf};
ghost use Rattle.io_edge.specs.Edge.{Rose};
ghost use Rattle.formula_ast.specs.WellFormed.{IsWellFormed};
ghost use Rattle.command_words.specs.Words.{said};
ghost use Rattle.solver_cli.specs.declared.stop.Stop.TheVariants.{Failed, NoMemory};
ghost use Rattle.solver_cli.specs.Run.{answers, counts, output_of, WritesAll, WritesFewer, WritesCut};

use crate::counting::counts_text;
use crate::stop::Stop;
use crate::writing::write_whole;
use answer_texts::answer;
use command_words::Input;
use flattening::Solved;
use formula_ast::File;
use io_edge::Sink;
use normal_form::PlainEngine;
use std::alloc::Global;

// Decides each statement and writes its answer before the next one.
fn write_answers<O: Sink>(alloc: Global, file: &File, out: &mut O) -> Result<(), Stop>
    requires { IsWellFormed file.now }
    ensures all { OnOk result (WritesAll O.writes O.taken answers file.now out.old out.new) }
    ensures cut { IsErrOf result Failed → WritesCut O.writes O.taken answers file.now out.old out.new }
    ensures failed { IsErrOf result Failed → Rose (O.faults out.old) (O.faults out.new) }
    ensures fewer { IsErrOf result NoMemory → WritesFewer O.writes O.taken answers file.now out.old out.new }
{
    let mut engine = PlainEngine;
    // Each predicate and each win that is asked for is solved once for all statements.
    let mut table = Solved::new(alloc);
    'statements: for place in 0..file.solves.len() {
        let Ok(text) = answer(alloc, &mut engine, file, place + 1, &mut table) else {
            return Err(Stop::NoMemory);
        };
        match write_whole(out, text.as_bytes()) {
            Ok(()) => {}
            Err(_) => return Err(Stop::Failed),
        }
    }
    Ok(())
}

// Decides all statements and writes the line of the counts.
fn write_counts<O: Sink>(alloc: Global, file: &File, out: &mut O) -> Result<(), Stop>
    requires { IsWellFormed file.now }
    ensures all { OnOk result (WritesAll O.writes O.taken counts file.now out.old out.new) }
    ensures cut { IsErrOf result Failed → WritesCut O.writes O.taken counts file.now out.old out.new }
    ensures failed { IsErrOf result Failed → Rose (O.faults out.old) (O.faults out.new) }
    ensures fewer { IsErrOf result NoMemory → WritesFewer O.writes O.taken counts file.now out.old out.new }
{
    let Ok(text) = counts_text(alloc, file) else {
        return Err(Stop::NoMemory);
    };
    match write_whole(out, text.as_bytes()) {
        Ok(()) => Ok(()),
        Err(_) => Err(Stop::Failed),
    }
}

/// Writes what the input asks for of the file that its bytes read as.
pub(crate) fn write_texts<O: Sink>(
    alloc: Global,
    input: &Input,
    file: &File,
    out: &mut O,
) -> Result<(), Stop>
    requires { IsWellFormed file.now }
    ensures all { OnOk result (WritesAll O.writes O.taken (output_of (said input.now)) file.now out.old out.new) }
    ensures cut { IsErrOf result Failed →
        WritesCut O.writes O.taken (output_of (said input.now)) file.now out.old out.new }
    ensures failed { IsErrOf result Failed → Rose (O.faults out.old) (O.faults out.new) }
    ensures fewer { IsErrOf result NoMemory →
        WritesFewer O.writes O.taken (output_of (said input.now)) file.now out.old out.new }
{
    match input {
        Input::File(_) | Input::Game(_) => write_answers(alloc, file, out),
        Input::Generated(_) => write_counts(alloc, file, out),
    }
}
