// The verdicts of the statements of a file are counted.
ghost use Rattle.std.specs.Prelude.{◌≡◌, ◌↔◌, ◌-◌, ◌^◌, ◌<◌, ℕ, List, [], ◌∷◌, ◌++◌, IfOk, string_bytes};
ghost use Rattle.formula_ast.specs.WellFormed.{IsWellFormed, IsStatementOver};
ghost use Rattle.step_facts.specs.Lists.{IsPlain};
ghost use Rattle.game_library.specs.Entries.{AreRight};
ghost use Rattle.solver_cli.specs.declared.counting.Verdict.{Verdict};
ghost use Rattle.solver_cli.specs.Counts.{IsRightVerdict, AreCounts, Count, IsCountsText, counts_line};

use decision::{Answer, decide_by};
use flattening::Solved;
use formula_ast::{File, Statement};
use lists::NoMemory;
use normal_form::PlainEngine;
use std::alloc::Global;

// What is so of a statement.
#[derive(Clone, Copy, Debug, PartialEq, Eq, Drop)]
pub(crate) enum Verdict {
    // Every valuation satisfies it.
    Valid,
    // No valuation satisfies it.
    Unsatisfiable,
    // Some valuation satisfies it, and some does not.
    Neither,
}

// How many statements have each verdict.
#[derive(Clone, Copy, Debug, PartialEq, Eq, Drop)]
pub(crate) struct Counts {
    valid: usize,
    unsatisfiable: usize,
    neither: usize,
}

impl Counts {
    // With one more verdict.
    fn with(self, verdict: Verdict) -> Counts
        requires valid { self.valid < 2 ^ 64 - 1 }
        requires unsatisfiable { self.unsatisfiable < 2 ^ 64 - 1 }
        requires neither { self.neither < 2 ^ 64 - 1 }
        ensures { (verdicts : List Verdict) → AreCounts self verdicts → AreCounts result (verdicts ++ verdict ∷ []) }
    {
        match verdict {
            Verdict::Valid => Counts {
                valid: self.valid + 1,
                ..self
            },
            Verdict::Unsatisfiable => Counts {
                unsatisfiable: self.unsatisfiable + 1,
                ..self
            },
            Verdict::Neither => Counts {
                neither: self.neither + 1,
                ..self
            },
        }
    }
}

// The verdict that an answer gives.
fn said_by(answer: &Answer) -> Verdict
    ensures valid { (result ≡ Verdict.Valid) ↔ (answer.now ≡ Answer.True) }
    ensures unsatisfiable { (result ≡ Verdict.Unsatisfiable) ↔ (answer.now ≡ Answer.False) }
{
    match answer {
        Answer::True => Verdict::Valid,
        Answer::False => Verdict::Unsatisfiable,
        Answer::Open { .. } => Verdict::Neither,
    }
}

// Decides a statement. The table of solved predicates and wins gets what it lacks.
fn verdict_of(
    alloc: Global,
    file: &File,
    s: &Statement,
    table: &mut Solved,
) -> Result<Verdict, NoMemory>
    requires file { IsWellFormed file.now }
    requires statement { IsStatementOver file.now.signature s.now }
    requires table { AreRight IsPlain file.now table.old }
    ensures table { AreRight IsPlain file.now table.new }
    ensures right { IfOk result (IsRightVerdict file.now s.now) }
{
    let answer = decide_by(alloc, &mut PlainEngine, file, s, table)?;
    Ok(said_by(&answer))
}

// How many statements of the file have each verdict.
fn count(alloc: Global, file: &File) -> Result<Counts, NoMemory>
    requires { IsWellFormed file.now }
    ensures { IfOk result (Count file.now file.now.solves) }
{
    let mut counts = Counts {
        valid: 0,
        unsatisfiable: 0,
        neither: 0,
    };
    // Each predicate and each win that is asked for is solved once for all statements.
    let mut table = Solved::new(alloc);
    'statements: for place in 0..file.solves.len() {
        let verdict = verdict_of(alloc, file, file.solves.get(place), &mut table)?;
        counts = counts.with(verdict);
    }
    Ok(counts)
}

fn line(alloc: Global, counts: Counts) -> Result<String, NoMemory>
    ensures { IfOk result (λ text. string_bytes text ≡ counts_line counts.valid counts.unsatisfiable counts.neither) }
{
    let Counts {
        valid,
        unsatisfiable,
        neither,
    } = counts;
    Ok(format!(in alloc; "true {valid} false {unsatisfiable} open {neither}\n")?)
}

/// Decides each statement of the file, and gives the line of the counts.
pub(crate) fn counts_text(alloc: Global, file: &File) -> Result<String, NoMemory>
    requires { IsWellFormed file.now }
    ensures { IfOk result (λ text. IsCountsText file.now (string_bytes text)) }
{
    let counts = count(alloc, file)?;
    line(alloc, counts)
}
