//! The steps of the elimination, one after the other.
ghost use Rattle.std.specs.Prelude.{◌≡◌, ◌↔◌, ◌+◌, ℕ, List, [], IfOk, IfSome, None, All, Contains};
ghost use Rattle.tree_model.specs.Signatures.{Signature};
ghost use Rattle.tree_model.specs.Valuations.{Valuation};
ghost use Rattle.flat_form.specs.declared.atom.Flat.{Flat};
ghost use Rattle.flat_form.specs.declared.cube.Cube.{Cube};
ghost use Rattle.flat_form.specs.Fitting.{CubeFits};
ghost use Rattle.flat_form.specs.Meanings.{CubeHolds};
ghost use Rattle.flat_form.specs.Numbering.{IsWellNumbered};
ghost use Rattle.flat_form.specs.Reduced.{IsReduced};
ghost use Rattle.flat_form.specs.Steps.{IsGrouped, Outcome};
ghost use Rattle.flat_form.specs.Symbols.{cube_symbols};
ghost use Rattle.cube_reduction.specs.Ordering.{WasGrouped, IsOrdered, KeepsNumbers};

use crate::clearing::{Ordered, cleared, in_order, keeps_numbers};
use crate::fates::staying;
use crate::grouping::{Grouped, group};
use crate::memory::Memory;
use crate::over::{Over, solved};
use crate::settling::settled_unless_implied;
use flat_form::Cube;
use lists::{Copied, NoMemory};
use std::alloc::Global;

// What the steps behind the grouping come to, where no variable gets another number. None where a part holds wherever
// the basic does.
fn finished(alloc: Global, memory: &mut Memory, mid: Cube) -> Result<Option<Cube>, NoMemory>
    requires grouped { WasGrouped mid [] }
    requires stays { (order : List ℕ) × (basic : List Flat) × IsOrdered mid [] order basic × KeepsNumbers mid [] order basic }
    ensures { IfOk result (λ found. (raw : Cube) → IsGrouped raw mid [] → Outcome raw found) }
{
    let Some(count) = mid.free.checked_add(mid.outer) else {
        return Err(NoMemory);
    };
    let over = Over {
        count,
        base: mid.basic,
    };
    match staying(alloc, memory, &over, mid.parts)? {
        Some(parts) => Ok(Some(Cube {
            free: mid.free,
            outer: mid.outer,
            basic: over.base,
            parts,
        })),
        None => Ok(None),
    }
}

// The same, where variables get other numbers.
fn renumbered(
    alloc: Global,
    mid: Cube,
    idle: &[usize],
    scope: usize,
    ordered: Ordered,
) -> Result<Option<Cube>, NoMemory>
    requires scope { scope ≡ mid.free + mid.outer }
    requires grouped { WasGrouped mid idle.now }
    requires ordered { IsOrdered mid idle.now ordered.order ordered.basic }
    ensures { IfOk result (λ found. (raw : Cube) → IsGrouped raw mid idle.now → Outcome raw found) }
{
    let over = Over {
        count: scope,
        base: mid.basic,
    };
    match settled_unless_implied(alloc, &over, mid.parts.as_slice())? {
        Some(first) => {
            let mid = Cube {
                free: mid.free,
                outer: mid.outer,
                basic: over.base,
                parts: mid.parts,
            };
            let cube = cleared(alloc, &mid, scope, idle, ordered, first.as_slice())?;
            Ok(Some(cube))
        }
        None => Ok(None),
    }
}

// What the steps behind the grouping come to. None where a part holds wherever the basic does.
fn eliminated(
    alloc: Global,
    memory: &mut Memory,
    grouped: Grouped,
) -> Result<Option<Cube>, NoMemory>
    requires { WasGrouped grouped.mid grouped.idle }
    ensures { IfOk result (λ found. (raw : Cube) → IsGrouped raw grouped.mid grouped.idle → Outcome raw found) }
{
    let Grouped { mid, idle } = grouped;
    let Some(scope) = mid.free.checked_add(mid.outer) else {
        return Err(NoMemory);
    };
    let ordered = in_order(alloc, &mid, scope, idle.as_slice())?;
    if keeps_numbers(alloc, &mid, scope, idle.as_slice(), &ordered)? {
        finished(alloc, memory, mid)
    } else {
        renumbered(alloc, mid, idle.as_slice(), scope, ordered)
    }
}

// What all steps come to.
fn outcome_of(alloc: Global, memory: &mut Memory, raw: Cube) -> Result<Option<Cube>, NoMemory>
    requires { IsWellNumbered raw }
    ensures { IfOk result (Outcome raw) }
{
    let Some(count) = raw.free.checked_add(raw.outer) else {
        return Err(NoMemory);
    };
    match solved(alloc, count, &raw.basic)? {
        Some(form) => {
            let grouped = group(alloc, raw, &form)?;
            eliminated(alloc, memory, grouped)
        }
        None => Ok(None),
    }
}

/// The same as `reduce`, but for parts that are remembered.
pub fn reduce_by(alloc: Global, memory: &mut Memory, raw: Cube) -> Result<Option<Cube>, NoMemory>
    requires { IsWellNumbered raw }
    ensures outcome { IfOk result (Outcome raw) }
    ensures over { IfOk result (λ found. IfSome found (λ cube. (cube.free ≡ raw.free) × IsWellNumbered cube)) }
{
    outcome_of(alloc, memory, raw)
}

/// A reduced cube that means the same, or none where the cube has no solution.
pub fn reduce(alloc: Global, raw: &Cube) -> Result<Option<Cube>, NoMemory>
    requires { IsWellNumbered raw.now }
    ensures outcome { IfOk result (Outcome raw.now) }
    ensures over { IfOk result (λ found. IfSome found (λ cube. (cube.free ≡ raw.now.free) × IsWellNumbered cube)) }
    ensures reduced { IfOk result (λ found. IfSome found (λ cube. (σ : Signature) → CubeFits σ raw.now → IsReduced cube)) }
    ensures means { IfOk result (λ found. IfSome found (λ cube. (σ : Signature) (e : Valuation σ) → CubeFits σ raw.now → CubeHolds e raw.now ↔ CubeHolds e cube)) }
    ensures none { IfOk result (λ found. (σ : Signature) → CubeFits σ raw.now → (found ≡ None) ↔ ((e : Valuation σ) → ¬ CubeHolds e raw.now)) }
    ensures symbols { IfOk result (λ found. IfSome found (λ cube. All (Contains (cube_symbols raw.now)) (cube_symbols cube))) }
{
    outcome_of(alloc, &mut Memory::new(alloc), raw.copy(alloc)?)
}
