//! Parts in their last numbers, none twice.
ghost use Rattle.std.specs.Prelude.{◌≡◌, IsTrue, ◌↔◌, List, [], ◌∷◌, ◌++◌, IfOk, OnOk, All, Contains};
ghost use Rattle.flat_form.specs.declared.cube.Part.{Part};
ghost use Rattle.flat_form.specs.Numbering.{PartOver};
ghost use Rattle.flat_form.specs.Solved.{Ascends};
ghost use Rattle.flat_form.specs.Steps.{Finishes};
ghost use Rattle.numbering.specs.Finishing.{Joins};
ghost use Rattle.numbering.specs.Inner.{IsReached};

use crate::inner::number_inner;
use flat_form::{Part, Parts, is_same_part};
use lists::NoMemory;
use std::alloc::Global;

// Whether the part stands in the list.
fn is_among(parts: &[Part], part: &Part) -> bool
    ensures { IsTrue result ↔ Contains parts.now part.now }
{
    for other in parts {
        if is_same_part(other, part) {
            return true;
        }
    }
    false
}

// Puts the part last, unless it stands in the list.
fn push_new(parts: &mut Parts, part: Part) -> Result<(), NoMemory>
    ensures { OnOk result (Joins part parts.old parts.new) }
{
    if is_among(parts.as_slice(), &part) {
        return Ok(());
    }
    parts.push(part)
}

/// The parts with numbers for their inner variables by first occurrence, each once.
pub fn finish(alloc: Global, m: usize, parts: &[Part]) -> Result<Parts, NoMemory>
    requires ascend { All (λ (part : Part). Ascends part.basic) parts.now }
    requires over { All (PartOver m) parts.now }
    ensures { IfOk result (λ out. All (λ (part : Part). IsReached m part.basic) parts.now → Finishes m [] parts.now out) }
{
    let mut done = Parts::new(alloc);
    for part in parts {
        let numbered = number_inner(alloc, m, part)?;
        push_new(&mut done, numbered)?;
    }
    Ok(done)
}
