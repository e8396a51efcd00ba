//! What stands round `run` in a program: the words of the command line, the system's files and the exit status.
#![tactic(auto)]

ghost use Rattle.std.specs.Prelude.{◌≡◌, ◌≢◌};
ghost use Rattle.std.specs.Process.{exit_status};
ghost use Rattle.program.specs.Ending.{Ends};
ghost use Rattle.solver_cli.specs.Lines.{line_of};
ghost use Rattle.solver_cli.specs.Writing.{WritesLine};

use io_edge::{FileSource, Sink};
use solver_cli::{Status, report, run};
use std::process::ExitCode;
use std::rt::{Env, Files};
use std::{env, io};

// Why there are no words to run with.
#[derive(Clone, Copy, Debug, Drop)]
enum NoWords {
    NotText,
    NoMemory,
}

// The words after the program's name.
fn words<R: Env + AllocGlobal>(rt: &R) -> Result<Vec<String>, NoWords> {
    let mut words = Vec::new(rt.alloc());
    let args = match env::args(rt) {
        Ok(args) => args,
        Err(error) if error.kind() == io::ErrorKind::OutOfMemory => return Err(NoWords::NoMemory),
        Err(_) => return Err(NoWords::NotText),
    };
    for word in args.skip(1) {
        if words.push(word).is_err() {
            return Err(NoWords::NoMemory);
        }
    }
    Ok(words)
}

// The words as `run` takes them.
fn texts<'a, R: AllocGlobal>(rt: &R, words: &'a [String]) -> Result<Vec<&'a str>, NoWords> {
    let mut texts = Vec::new(rt.alloc());
    for word in words {
        if texts.push(word.as_str()).is_err() {
            return Err(NoWords::NoMemory);
        }
    }
    Ok(texts)
}

// The status where there are no words, with its line written.
fn without_words<E: Sink>(no_words: NoWords, err: &mut E) -> Status
    ensures line { WritesLine E.writes E.taken E.faults err.old (line_of result) err.new }
    ensures not_done { result ≢ Status.Done }
{
    let status = match no_words {
        NoWords::NotText => Status::Usage,
        NoWords::NoMemory => Status::Memory,
    };
    report(err, status);
    status
}

// A run with the words of the command line, over the system's files.
fn run_with_words<R: Files + Env + AllocGlobal, O: Sink, E: Sink>(
    rt: &R,
    out: &mut O,
    err: &mut E,
) -> Status
    ensures silent { result ≡ Status.Done → err.new ≡ err.old }
    ensures line { result ≢ Status.Refused → WritesLine E.writes E.taken E.faults err.old (line_of result) err.new }
{
    let words = match words(rt) {
        Ok(words) => words,
        Err(no_words) => return without_words(no_words, err),
    };
    let texts = match texts(rt, &words) {
        Ok(texts) => texts,
        Err(no_words) => return without_words(no_words, err),
    };
    let mut source = FileSource::new(rt);
    run(rt.alloc(), &texts, &mut source, out, err)
}

/// Runs with the words of the command line, over the system's files, and tells with which status to exit.
pub fn exit_code<R: Files + Env + AllocGlobal, O: Sink, E: Sink>(
    rt: &R,
    out: &mut O,
    err: &mut E,
) -> ExitCode
    ensures { Ends E.writes E.taken E.faults err.old (exit_status result) err.new }
{
    ExitCode::from(run_with_words(rt, out, err).exit())
}
