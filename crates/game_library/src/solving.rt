// Formulas are solved by a table.
ghost use Rattle.std.specs.Prelude.{ℕ, length, All, Contains, IfOk};
ghost use Rattle.lists.specs.Distinct.{IsDistinct};
ghost use Rattle.formula_ast.specs.Forms.{form_of};
ghost use Rattle.formula_ast.specs.WellFormed.{IsWellFormed, IsStatementOver};
ghost use Rattle.flat_form.specs.Numbering.{CubesOver};
ghost use Rattle.flat_form.specs.Reduced.{IsReduced};
ghost use Rattle.flat_form.specs.Symbols.{cubes_symbols};
ghost use Rattle.flattening.specs.Conditions.{HasFreeVariables};
ghost use Rattle.game_library.specs.Entries.{AreRight, IsGivenFor};
ghost use Rattle.game_library.specs.Solving.{IsOverFile, StandsIn, IsGrown, SolvesForm};

use crate::completing::complete;
use crate::entries::solve_with;
use flat_form::Cubes;
use flattening::Solved;
use formula_ast::{File, Formula, Statement};
use lists::NoMemory;
use normal_form::Engine;
use std::alloc::Global;
use tree_model::Places;

/// The reduced cubes, over as many free variables as there are ranks, of which some cube holds exactly where the formula
/// is satisfied, with the variable `ranks[i]` as number i. `ranks` has all free variables of the formula.
///
/// What the table lacks of the entries that the formula needs is added, so a table that is lent to every call of a run
/// has each predicate and each win solved once.
pub fn solve_by<E: Engine>(
    alloc: Global,
    engine: &mut E,
    file: &File,
    f: &Formula,
    ranks: &Places,
    table: &mut Solved,
) -> Result<Cubes, NoMemory>
    requires formed { IsWellFormed file.now }
    requires over { IsOverFile file.now (form_of f.now) }
    requires free { HasFreeVariables ranks.now (form_of f.now) }
    requires right { AreRight E.gives file.now table.old }
    ensures right { AreRight E.gives file.now table.new }
    ensures grown { IsGrown table.old table.new }
    ensures given { IfOk result (IsGivenFor E.gives file.now ranks.now (form_of f.now)) }
    ensures over { IfOk result (CubesOver (length ranks.now)) }
    ensures reduced { IfOk result (All IsReduced) }
    ensures distinct { IfOk result IsDistinct }
    ensures symbols { IfOk result (λ cubes. All (StandsIn file.now (form_of f.now)) (cubes_symbols cubes)) }
    ensures meaning { IfOk result (SolvesForm file.now ranks.now (form_of f.now)) }
{
    complete(alloc, engine, file, f, table)?;
    let cubes = solve_with(alloc, engine, file, f, ranks, table)?;
    Ok(cubes)
}

/// The same for the body of a statement, with a table of its own.
pub fn solve_formula<E: Engine>(
    alloc: Global,
    engine: &mut E,
    file: &File,
    s: &Statement,
    ranks: &Places,
) -> Result<Cubes, NoMemory>
    requires formed { IsWellFormed file.now }
    requires over { IsStatementOver file.now.signature s.now }
    requires free { HasFreeVariables ranks.now (form_of s.now.body) }
    ensures given { IfOk result (IsGivenFor E.gives file.now ranks.now (form_of s.now.body)) }
    ensures over { IfOk result (CubesOver (length ranks.now)) }
    ensures reduced { IfOk result (All IsReduced) }
    ensures distinct { IfOk result IsDistinct }
    ensures symbols { IfOk result (λ cubes. All (StandsIn file.now (form_of s.now.body)) (cubes_symbols cubes)) }
    ensures meaning { IfOk result (SolvesForm file.now ranks.now (form_of s.now.body)) }
{
    let mut table = Solved::new(alloc);
    let cubes = solve_by(alloc, engine, file, &s.body, ranks, &mut table)?;
    Ok(cubes)
}
