// The names of free variables.
ghost use Rattle.std.specs.Prelude.{◌≡◌, ◌<◌, All, IfOk, length};
ghost use Rattle.decision.specs.Naming.{names_at};

use formula_ast::Names;
use lists::{Copied, NoMemory};
use std::alloc::Global;
use tree_model::Places;

// The names of these variables, in this order.
pub(crate) fn names_at(alloc: Global, names: &Names, ranks: &Places) -> Result<Names, NoMemory>
    requires { All (λ x. x < length names.now) ranks.now }
    ensures { IfOk result (λ found. found ≡ names_at names.now ranks.now) }
{
    let mut found = Names::new(alloc);
    for rank in ranks.as_slice() {
        found.push(names.get(*rank).copy(alloc)?)?;
    }
    Ok(found)
}
