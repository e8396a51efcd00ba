//! The classes that a search has met, in order, and how far it is with each.
ghost use Rattle.std.specs.Prelude.{◌≡◌, ◌<◌, [], ◌∷◌, ◌++◌, length, nat_eq, slice_index, Some, None, OnOk};
ghost use Rattle.std.specs.List.{IsDistinct};
ghost use Rattle.std.specs.Map.{keys_of, set_value};
ghost use Rattle.finiteness.specs.Stages.{stage_of};

use indexmap::IndexMap;
use tree_model::NoMemory;

/// How far a search is with a class that it has met.
#[derive(Clone, Copy, Debug, Drop)]
pub(crate) enum Stage {
    /// It stands on the walk at hand.
    Open,
    /// All walks from it end.
    Done,
}

/// How far the search is with the class, if it has met it.
pub(crate) fn stage_at(visits: &IndexMap<usize, Stage>, class: usize) -> Option<Stage>
    ensures { result ≡ stage_of visits.now.entries class }
{
    visits.get(&class).copied()
}

/// A new class stands on the walk.
pub(crate) fn begin(visits: &mut IndexMap<usize, Stage>, class: usize) -> Result<(), NoMemory>
    requires { stage_of visits.old.entries class ≡ None }
    ensures begun { OnOk result (visits.new.entries ≡ visits.old.entries ++ (class, Stage.Open) ∷ []) }
    ensures once { OnOk result (IsDistinct nat_eq (keys_of visits.new.entries)) }
{
    visits.insert(class, Stage::Open)?;
    Ok(())
}

/// A class that stands on the walk is done. It takes no memory.
pub(crate) fn finish(visits: &mut IndexMap<usize, Stage>, class: usize)
    requires { stage_of visits.old.entries class ≡ Some Stage.Open }
    ensures { visits.new.entries ≡ set_value (nat_eq class) visits.old.entries Stage.Done }
{
    if let Some(stage) = visits.get_mut(&class) {
        *stage = Stage::Done;
    }
}

/// The class that was met at this place in the order.
pub(crate) fn class_at(visits: &IndexMap<usize, Stage>, place: usize) -> usize
    requires { place < length visits.now.entries }
    ensures { result ≡ slice_index (keys_of visits.now.entries) place }
{
    match visits.get_index(place) {
        Some((class, _)) => *class,
        None => unreachable!(),
    }
}
