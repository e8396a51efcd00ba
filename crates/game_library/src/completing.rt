// Tables get the entries that a formula needs.
ghost use Rattle.std.specs.Prelude.{OnOk};
ghost use Rattle.formula_ast.specs.Forms.{Form, form_of};
ghost use Rattle.formula_ast.specs.WellFormed.{IsWellFormed};
ghost use Rattle.flattening.specs.Conditions.{HasEntries};
ghost use Rattle.flattening.specs.Plain.{plain_of};
ghost use Rattle.game_library.specs.Entries.{AreRight};
ghost use Rattle.game_library.specs.Needs.{AreNeeded};
ghost use Rattle.game_library.specs.Solving.{IsOverFile, IsGrown};

use crate::entries::add_marked;
use crate::marks::{Marks, needed};
use flattening::Solved;
use formula_ast::{File, Formula};
use lists::NoMemory;
use normal_form::Engine;
use std::alloc::Global;

// The marked entries stand.
fn fill<E: Engine>(
    alloc: Global,
    engine: &mut E,
    file: &File,
    marks: &Marks,
    table: &mut Solved,
) -> Result<(), NoMemory>
    requires formed { IsWellFormed file.now }
    requires needed { (f : Form) × IsOverFile file.now f × AreNeeded file.now f marks.now }
    requires right { AreRight E.gives file.now table.old }
    ensures right { AreRight E.gives file.now table.new }
    ensures grown { IsGrown table.old table.new }
    ensures ok { OnOk result ((f : Form) → IsOverFile file.now f → AreNeeded file.now f marks.now → HasEntries table.new (plain_of f)) }
{
    for i in 0..file.preds.len() {
        let pred = file.preds.get(i);
        add_marked(alloc, engine, file, pred, marks.of(pred.place), table)?;
    }
    Ok(())
}

/// Adds to the table what it lacks of the entries that the formula needs: those of the predicates that it calls and of
/// its wins, and those that these need in turn. Predicates are solved in their order of declaration, and wins from the
/// fewest moves on.
///
/// What was added before memory was wanting stays.
pub fn complete<E: Engine>(
    alloc: Global,
    engine: &mut E,
    file: &File,
    f: &Formula,
    table: &mut Solved,
) -> Result<(), NoMemory>
    requires formed { IsWellFormed file.now }
    requires over { IsOverFile file.now (form_of f.now) }
    requires right { AreRight E.gives file.now table.old }
    ensures right { AreRight E.gives file.now table.new }
    ensures grown { IsGrown table.old table.new }
    ensures ok { OnOk result (HasEntries table.new (plain_of (form_of f.now))) }
{
    let marks = needed(alloc, file, f)?;
    fill(alloc, engine, file, &marks, table)?;
    Ok(())
}
