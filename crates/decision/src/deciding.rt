// Statements are decided.
ghost use Rattle.std.specs.Prelude.{◌≡◌, ◌↔◌, IfOk};
ghost use Rattle.formula_ast.specs.Forms.{form_of, no};
ghost use Rattle.formula_ast.specs.Valid.{IsValid, IsUnsatisfiable};
ghost use Rattle.formula_ast.specs.WellFormed.{IsWellFormed, IsStatementOver};
ghost use Rattle.flattening.specs.Conditions.{HasFreeVariables};
ghost use Rattle.game_library.specs.Entries.{AreRight};
ghost use Rattle.game_library.specs.Solving.{IsOverFile};
ghost use Rattle.decision.specs.Decided.{IsSolution, OpensRightly};

use crate::answer::Answer;
use crate::opening::opened;
use flat_form::Cubes;
use flattening::Solved;
use formula_ast::{File, Formula, Statement, free_variables};
use game_library::solve_by;
use lists::NoMemory;
use normal_form::Engine;
use sqlite_items::Boxed;
use std::alloc::Global;
use tree_model::Places;

// The negation.
#[tactic(auto, using(formula_ast::proofs::Ties::form_rules))]
fn negation(alloc: Global, f: &Formula) -> Result<Formula, NoMemory>
    ensures { IfOk result (λ negation. form_of negation ≡ no (form_of f.now)) }
{
    Ok(Formula::Not(Boxed::new(alloc, f.copy(alloc)?)?))
}

// The cubes of a formula of the file.
fn solution<E: Engine>(
    alloc: Global,
    engine: &mut E,
    file: &File,
    f: &Formula,
    ranks: &Places,
    table: &mut Solved,
) -> Result<Cubes, NoMemory>
    requires file { IsWellFormed file.now }
    requires over { IsOverFile file.now (form_of f.now) }
    requires free { HasFreeVariables ranks.now (form_of f.now) }
    requires table { AreRight E.gives file.now table.old }
    ensures table { AreRight E.gives file.now table.new }
    ensures solution { IfOk result (IsSolution E.gives file.now ranks.now (form_of f.now)) }
{
    let cubes = solve_by(alloc, engine, file, f, ranks, table)?;
    Ok(cubes)
}

// The cubes of the negation.
fn denied<E: Engine>(
    alloc: Global,
    engine: &mut E,
    file: &File,
    s: &Statement,
    ranks: &Places,
    table: &mut Solved,
) -> Result<Cubes, NoMemory>
    requires file { IsWellFormed file.now }
    requires statement { IsStatementOver file.now.signature s.now }
    requires free { HasFreeVariables ranks.now (form_of s.now.body) }
    requires table { AreRight E.gives file.now table.old }
    ensures table { AreRight E.gives file.now table.new }
    ensures solution { IfOk result (IsSolution E.gives file.now ranks.now (no (form_of s.now.body))) }
{
    let negation = negation(alloc, &s.body)?;
    let cubes = solution(alloc, engine, file, &negation, ranks, table)?;
    Ok(cubes)
}

/// Decides a statement. The table of solved predicates and wins gets what it lacks, so that each of them is solved once for
/// all statements of a file.
pub fn decide_by<E: Engine>(
    alloc: Global,
    engine: &mut E,
    file: &File,
    s: &Statement,
    table: &mut Solved,
) -> Result<Answer, NoMemory>
    requires file { IsWellFormed file.now }
    requires statement { IsStatementOver file.now.signature s.now }
    requires table { AreRight E.gives file.now table.old }
    ensures table { AreRight E.gives file.now table.new }
    ensures always { IfOk result (λ answer. (answer ≡ Answer.True) ↔ IsValid file.now s.now) }
    ensures never { IfOk result (λ answer. (answer ≡ Answer.False) ↔ IsUnsatisfiable file.now s.now) }
    ensures open { IfOk result (OpensRightly E.gives file.now s.now) }
{
    let ranks = free_variables(alloc, &s.body)?;
    let cubes = solution(alloc, engine, file, &s.body, &ranks, table)?;
    if cubes.len() == 0 {
        return Ok(Answer::False);
    }
    // Over no variable, a reduced cube holds everywhere.
    if ranks.len() == 0 {
        return Ok(Answer::True);
    }
    let others = denied(alloc, engine, file, s, &ranks, table)?;
    if others.len() == 0 {
        return Ok(Answer::True);
    }
    opened(alloc, file, s, &ranks, &cubes, &others)
}

/// Decides a statement, with a table of its own.
pub fn decide<E: Engine>(
    alloc: Global,
    engine: &mut E,
    file: &File,
    s: &Statement,
) -> Result<Answer, NoMemory>
    requires file { IsWellFormed file.now }
    requires statement { IsStatementOver file.now.signature s.now }
    ensures always { IfOk result (λ answer. (answer ≡ Answer.True) ↔ IsValid file.now s.now) }
    ensures never { IfOk result (λ answer. (answer ≡ Answer.False) ↔ IsUnsatisfiable file.now s.now) }
    ensures open { IfOk result (OpensRightly E.gives file.now s.now) }
{
    decide_by(alloc, engine, file, s, &mut Solved::new(alloc))
}
