//! New numbers for the inner variables of a part.
ghost use Rattle.std.specs.Prelude.{IfOk};
ghost use Rattle.flat_form.specs.Numbering.{PartOver};
ghost use Rattle.flat_form.specs.Solved.{Ascends};
ghost use Rattle.flat_form.specs.Steps.{NumbersInner};
ghost use Rattle.numbering.specs.Inner.{IsReached};

use crate::meeting::met;
use crate::renumbering::number_all;
use flat_form::Part;
use lists::NoMemory;
use std::alloc::Global;

/// The part with numbers for its inner variables by first occurrence.
pub fn number_inner(alloc: Global, m: usize, part: &Part) -> Result<Part, NoMemory>
    requires ascending { Ascends part.now.basic }
    requires over { PartOver m part.now }
    ensures { IfOk result (λ new. IsReached m part.now.basic → NumbersInner m part.now new) }
{
    let Some(count) = m.checked_add(part.inner) else {
        return Err(NoMemory);
    };
    let order = met(alloc, m, count, &part.basic)?;
    let basic = number_all(alloc, m, count, order.as_slice(), &part.basic)?;
    Ok(Part {
        inner: order.len(),
        basic,
    })
}
