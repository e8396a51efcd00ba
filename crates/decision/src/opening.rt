// Open answers.
ghost use Rattle.std.specs.Prelude.{All, IfOk, length, ◌<◌, ℕ, List};
ghost use Rattle.decision.specs.Naming.{names_at, used_indexes};
ghost use Rattle.decision.specs.Shown.{CanBeShown, ShowsBoth};

use crate::answer::Answer;
use crate::naming::names_at;
use crate::sides::shown;
use crate::used::used_indexes;
use flat_form::Cubes;
use formula_ast::{File, Names, Statement};
use lists::NoMemory;
use std::alloc::Global;
use tree_model::Places;

// Both lists as they are shown.
fn both(
    alloc: Global,
    cubes: &Cubes,
    others: &Cubes,
    names: &Names,
    used: &[u64],
) -> Result<Answer, NoMemory>
    requires cubes { CanBeShown names.now used.now cubes.now }
    requires others { CanBeShown names.now used.now others.now }
    ensures { IfOk result (ShowsBoth names.now used.now cubes.now others.now) }
{
    let body = shown(alloc, cubes, names, used)?;
    let other = shown(alloc, others, names, used)?;
    Ok(Answer::Open {
        formula: body.solved,
        complement: other.solved,
        holds: body.example,
        fails: other.example,
    })
}

// The open answer of a statement whose list of cubes, and that of whose negation, have a cube.
pub(crate) fn opened(
    alloc: Global,
    file: &File,
    s: &Statement,
    ranks: &Places,
    cubes: &Cubes,
    others: &Cubes,
) -> Result<Answer, NoMemory>
    requires ranks { All (λ x. x < length s.now.names) ranks.now }
    requires cubes { CanBeShown (names_at s.now.names ranks.now) (used_indexes file.now s.now.body) cubes.now }
    requires others { CanBeShown (names_at s.now.names ranks.now) (used_indexes file.now s.now.body) others.now }
    ensures { IfOk result (ShowsBoth (names_at s.now.names ranks.now) (used_indexes file.now s.now.body) cubes.now others.now) }
{
    let names = names_at(alloc, &s.names, ranks)?;
    let used = used_indexes(alloc, file, &s.body)?;
    let answer = both(alloc, cubes, others, &names, used.as_slice())?;
    Ok(answer)
}
