// The indexes of further symbols that stand in a statement or in a predicate.
ghost use Rattle.std.specs.Prelude.{◌≡◌, ◌++◌, IfOk, OnOk};
ghost use Rattle.decision.specs.Naming.{indexes_of, used_indexes};

use formula_ast::{File, Formula, indexes};
use lists::NoMemory;
use std::alloc::Global;

// Adds the indexes of a formula.
fn add_indexes(alloc: Global, f: &Formula, used: &mut Vec<u64>) -> Result<(), NoMemory>
    ensures { OnOk result (used.new.items ≡ used.old.items ++ indexes_of f.now) }
{
    let met = indexes(alloc, f)?;
    used.extend_from_slice(met.as_slice())?;
    Ok(())
}

// The indexes of a formula, and of the body of each predicate of the file.
pub(crate) fn used_indexes(alloc: Global, file: &File, f: &Formula) -> Result<Vec<u64>, NoMemory>
    ensures { IfOk result (λ used. used.items ≡ used_indexes file.now f.now) }
{
    let mut used = indexes(alloc, f)?;
    for pred in file.preds.as_slice() {
        add_indexes(alloc, &pred.body, &mut used)?;
    }
    Ok(used)
}
