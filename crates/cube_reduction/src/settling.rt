//! Parts over a solved conjunction: what each adds to it, without what its variables do not reach.
ghost use Rattle.std.specs.Prelude.{◌≡◌, [], IfOk, MatchOption, All, Contains};
ghost use Rattle.flat_form.specs.declared.cube.Part.{Part};
ghost use Rattle.flat_form.specs.Numbering.{BasicOver, PartOver};
ghost use Rattle.flat_form.specs.Solved.{IsDirect};
ghost use Rattle.flat_form.specs.Steps.{Settles, IsImplied};
ghost use Rattle.cube_reduction.specs.Settling.{ComesTo};

use crate::over::Over;
use crate::pruning::pruned;
use flat_form::{Part, Parts};
use lists::NoMemory;
use std::alloc::Global;

// What the part comes to over the base. None where it has no solution beside it.
pub(crate) fn settled(alloc: Global, over: &Over, part: &Part) -> Result<Option<Part>, NoMemory>
    requires direct { IsDirect over.now.base }
    requires base { BasicOver over.now.count over.now.base }
    requires part { PartOver over.now.count part.now }
    ensures { IfOk result (ComesTo over.now.count over.now.base part.now) }
{
    let Some(count) = over.count.checked_add(part.inner) else {
        return Err(NoMemory);
    };
    let found = over.added(alloc, part.inner, &part.basic)?;
    match found {
        Some(added) => {
            let basic = pruned(alloc, over.count, count, &added)?;
            Ok(Some(Part {
                inner: part.inner,
                basic,
            }))
        }
        None => Ok(None),
    }
}

// What the parts come to over the base, without those that have no solution beside it.
pub(crate) fn all_settled(alloc: Global, over: &Over, parts: &[Part]) -> Result<Parts, NoMemory>
    requires direct { IsDirect over.now.base }
    requires base { BasicOver over.now.count over.now.base }
    requires parts { All (PartOver over.now.count) parts.now }
    ensures { IfOk result (Settles over.now.count over.now.base parts.now) }
{
    let mut all = Parts::new(alloc);
    for part in parts {
        let found = settled(alloc, over, part)?;
        match found {
            Some(new) => all.push(new)?,
            None => {}
        }
    }
    Ok(all)
}

// The same, unless a part comes to nothing, so that it holds wherever the base does. None at the first such part.
pub(crate) fn settled_unless_implied(
    alloc: Global,
    over: &Over,
    parts: &[Part],
) -> Result<Option<Parts>, NoMemory>
    requires direct { IsDirect over.now.base }
    requires base { BasicOver over.now.count over.now.base }
    requires parts { All (PartOver over.now.count) parts.now }
    ensures { IfOk result (λ found. MatchOption found ((part : Part) × Contains parts.now part × IsImplied over.now.count over.now.base part)
        (λ all. Settles over.now.count over.now.base parts.now all × ((part : Part) → Contains all part → ¬ (part.basic ≡ [])))) }
{
    let mut all = Parts::new(alloc);
    for part in parts {
        let found = settled(alloc, over, part)?;
        match found {
            Some(new) => {
                if new.basic.len() == 0 {
                    return Ok(None);
                }
                all.push(new)?;
            }
            None => {}
        }
    }
    Ok(Some(all))
}
