// Lists of cubes as they are shown.
ghost use Rattle.std.specs.Prelude.{IfOk};
ghost use Rattle.decision.specs.Shown.{CanBeShown, ShowsCubes};

use explicit_form::explicit;
use flat_form::Cubes;
use formula_ast::{Names, Statement};
use lists::NoMemory;
use std::alloc::Global;
use tree_model::Assignment;
use witness_trees::witness;

// An explicit formula, and trees for its free variables under which it holds.
#[derive(Drop)]
pub(crate) struct Side {
    pub(crate) solved: Statement,
    pub(crate) example: Assignment,
}

// The explicit formula of the cubes, and the fresh assignment of the first of them.
pub(crate) fn shown(
    alloc: Global,
    cubes: &Cubes,
    names: &Names,
    used: &[u64],
) -> Result<Side, NoMemory>
    requires { CanBeShown names.now used.now cubes.now }
    ensures { IfOk result (λ side. ShowsCubes names.now used.now cubes.now side.solved side.example) }
{
    let solved = explicit(alloc, cubes, names)?;
    let example = witness(alloc, cubes.get(0), used)?;
    Ok(Side { solved, example })
}
