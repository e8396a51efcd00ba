//! The fresh assignment of a reduced cube.
ghost use Rattle.std.specs.Prelude.{◌≡◌, ◌+◌, length, IfOk};
ghost use Rattle.tree_model.specs.Graphs.{Forest};
ghost use Rattle.tree_model.specs.Signatures.{Signature, Fits};
ghost use Rattle.tree_model.specs.Valuations.{Valuation};
ghost use Rattle.flat_form.specs.Fitting.{CubeFits};
ghost use Rattle.flat_form.specs.Meanings.{CubeHolds};
ghost use Rattle.flat_form.specs.Numbering.{BasicOver};
ghost use Rattle.flat_form.specs.Reduced.{IsReduced};
ghost use Rattle.flat_form.specs.Solved.{Ascends};
ghost use Rattle.witness_trees.specs.Fresh.{IsFreshAssignment};
ghost use Rattle.witness_trees.specs.Values.{HasTreesOf, IndexesAreUsed};

use crate::breadth::numbered;
use crate::labels::{labels, tops};
use flat_form::Cube;
use lists::NoMemory;
use reachability::places_of;
use std::alloc::Global;
use tree_model::Assignment;

// The fresh assignment of a cube whose basic ascends.
pub(crate) fn assigned(alloc: Global, c: &Cube, used: &[u64]) -> Result<Assignment, NoMemory>
    requires over { BasicOver (c.now.free + c.now.outer) c.now.basic }
    requires ascending { Ascends c.now.basic }
    ensures { IfOk result (IsFreshAssignment c.now used.now) }
{
    let Some(count) = c.free.checked_add(c.outer) else {
        return Err(NoMemory);
    };
    let places = places_of(alloc, count, &c.basic)?;
    let labels = labels(alloc, c, places.as_slice(), used)?;
    let tops = tops(alloc, places.as_slice(), &c.basic, c.free)?;
    numbered(alloc, labels.as_slice(), &tops)
}

/// The fresh assignment of a reduced cube, with one root for each free variable. Used are indexes of further symbols;
/// those of the cube are among them.
pub fn witness(alloc: Global, c: &Cube, used: &[u64]) -> Result<Assignment, NoMemory>
    requires reduced { IsReduced c.now }
    requires used { IndexesAreUsed c.now used.now }
    ensures fresh { IfOk result (IsFreshAssignment c.now used.now) }
    ensures roots { IfOk result (λ (a : Forest). length a.roots ≡ c.now.free) }
    ensures fits { IfOk result (λ (a : Forest). (σ : Signature) → CubeFits σ c.now → Fits σ a.nodes) }
    ensures holds { IfOk result (λ (a : Forest). (σ : Signature) (e : Valuation σ) → CubeFits σ c.now → HasTreesOf a e → CubeHolds e c.now) }
{
    assigned(alloc, c, used)
}
