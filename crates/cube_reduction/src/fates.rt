//! What becomes of the parts of a grouped cube whose variables keep their numbers: each is settled, settled again over the
//! same conjunction, and its inner variables are numbered. So it depends on the part and the conjunction alone.
ghost use Rattle.std.specs.Prelude.{◌≡◌, ◌↔◌, IfOk, OnOk, IsTrue, MatchOption, All, Contains, Some, slice_get};
ghost use Rattle.flat_form.specs.declared.cube.Part.{Part};
ghost use Rattle.flat_form.specs.Numbering.{BasicOver, PartOver};
ghost use Rattle.flat_form.specs.Solved.{IsSolved};
ghost use Rattle.flat_form.specs.Steps.{SettlesTo, IsImplied};
ghost use Rattle.numbering.specs.Finishing.{Joins};
ghost use Rattle.cube_reduction.specs.Settling.{ComesTo};
ghost use Rattle.cube_reduction.specs.declared.fates.Fate.{Fate};
ghost use Rattle.cube_reduction.specs.Fates.{Becomes, IsTaken, Stay};

use crate::memory::Memory;
use crate::over::Over;
use crate::settling::settled;
use flat_form::{Part, Parts, is_same_part};
use lists::{Copied, NoMemory};
use numbering::number_inner;
use std::alloc::Global;

/// What becomes of a part.
#[derive(Debug, Drop)]
pub(crate) enum Fate {
    /// It cannot hold beside the base.
    Drops,
    /// It holds wherever the base does.
    Implied,
    /// It stays as it is.
    Stays,
    /// It becomes this part.
    Changes(Part),
}

// What the part comes to when it is settled again, where it was settled to the first.
fn settled_again(
    alloc: Global,
    over: &Over,
    part: &Part,
    first: Part,
) -> Result<Option<Part>, NoMemory>
    requires solved { IsSolved over.now.base }
    requires base { BasicOver over.now.count over.now.base }
    requires part { PartOver over.now.count part.now }
    requires first { SettlesTo over.now.count over.now.base part.now first }
    ensures { IfOk result (ComesTo over.now.count over.now.base first) }
{
    if is_same_part(part, &first) {
        return Ok(Some(first));
    }
    settled(alloc, over, &first)
}

// What becomes of the part over the base.
fn fate_of(alloc: Global, over: &Over, part: &Part) -> Result<Fate, NoMemory>
    requires solved { IsSolved over.now.base }
    requires base { BasicOver over.now.count over.now.base }
    requires part { PartOver over.now.count part.now }
    ensures { IfOk result (Becomes over.now.count over.now.base part.now) }
{
    let Some(first) = settled(alloc, over, part)? else {
        return Ok(Fate::Drops);
    };
    if first.basic.len() == 0 {
        return Ok(Fate::Implied);
    }
    let Some(second) = settled_again(alloc, over, part, first)? else {
        return Ok(Fate::Drops);
    };
    let new = number_inner(alloc, over.count, &second)?;
    if is_same_part(&new, part) {
        return Ok(Fate::Stays);
    }
    Ok(Fate::Changes(new))
}

// Whether the part stands in the list.
fn is_among(parts: &[Part], part: &Part) -> bool
    ensures { IsTrue result ↔ Contains parts.now part.now }
{
    for other in parts {
        if is_same_part(other, part) {
            return true;
        }
    }
    false
}

// Puts the part last, unless it stands in the list.
fn push_new(done: &mut Parts, part: Part) -> Result<(), NoMemory>
    ensures { OnOk result (Joins part done.old done.new) }
{
    if is_among(done.as_slice(), &part) {
        return Ok(());
    }
    done.push(part)?;
    Ok(())
}

// Puts a copy of the part last, unless it stands in the list.
fn push_copy(alloc: Global, done: &mut Parts, part: &Part) -> Result<(), NoMemory>
    ensures { OnOk result (Joins part.now done.old done.new) }
{
    if is_among(done.as_slice(), part) {
        return Ok(());
    }
    done.push(part.copy(alloc)?)?;
    Ok(())
}

// Puts what becomes of the part last, unless it stands in the list. False where the part is implied.
fn take_fate(alloc: Global, done: &mut Parts, part: Part, fate: &Fate) -> Result<bool, NoMemory>
    ensures { IfOk result (IsTaken part fate.now done.old done.new) }
{
    match fate {
        Fate::Drops => Ok(true),
        Fate::Implied => Ok(false),
        Fate::Stays => {
            push_new(done, part)?;
            Ok(true)
        }
        Fate::Changes(new) => {
            push_copy(alloc, done, new)?;
            Ok(true)
        }
    }
}

// Puts what becomes of the part last. The base stands at this place of the memory.
fn take_part(
    alloc: Global,
    memory: &mut Memory,
    place: usize,
    over: &Over,
    part: Part,
    done: &mut Parts,
) -> Result<bool, NoMemory>
    requires place { slice_get memory.old place ≡ Some over.now.base }
    requires solved { IsSolved over.now.base }
    requires base { BasicOver over.now.count over.now.base }
    requires part { PartOver over.now.count part }
    ensures kept { memory.new ≡ memory.old }
    ensures taken { IfOk result (λ goes_on. (fate : Fate) × Becomes over.now.count over.now.base part fate × IsTaken part fate done.old done.new goes_on) }
{
    if let Some(fate) = memory.recall(place, over.count, &part) {
        return take_fate(alloc, done, part, fate);
    }
    let fate = fate_of(alloc, over, &part)?;
    let known = part.copy(alloc)?;
    let goes_on = take_fate(alloc, done, part, &fate)?;
    memory.note(place, over.count, known, fate)?;
    Ok(goes_on)
}

/// What the parts come to over the base. None at the first part that holds wherever the base does.
pub(crate) fn staying(
    alloc: Global,
    memory: &mut Memory,
    over: &Over,
    parts: Parts,
) -> Result<Option<Parts>, NoMemory>
    requires solved { IsSolved over.now.base }
    requires base { BasicOver over.now.count over.now.base }
    requires parts { All (PartOver over.now.count) parts }
    ensures { IfOk result (λ found. MatchOption found ((part : Part) × Contains parts part × IsImplied over.now.count over.now.base part)
        (Stay over.now.count over.now.base parts)) }
{
    let place = memory.place_of(alloc, &over.base)?;
    let mut done = Parts::with_capacity(alloc, parts.len())?;
    for part in parts.into_items() {
        let goes_on = take_part(alloc, memory, place, over, part, &mut done)?;
        if !goes_on {
            return Ok(None);
        }
    }
    Ok(Some(done))
}
