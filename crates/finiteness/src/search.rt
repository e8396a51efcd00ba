//! Depth-first search along the arguments of terms, with a stack of its own.
ghost use Rattle.std.specs.Prelude.{◌≡◌, ℕ, ◌<◌, length, map, replicate, IfOk, MatchOption};
ghost use Rattle.flat_form.specs.Solved.{Ascends, IsSolved, HasTerm};
ghost use Rattle.flat_facts.specs.Spread.{IsTarget};
ghost use Rattle.finiteness.specs.declared.search.Mark.TheVariants.{New, Done};
ghost use Rattle.finiteness.specs.declared.search.Turn.{Turn};
ghost use Rattle.finiteness.specs.Places.{HasTermAt};
ghost use Rattle.finiteness.specs.Marks.{HasMark, IsSettled, AllAreSettled, IsOnward};
ghost use Rattle.finiteness.specs.Found.{IsFound};

use crate::lookup::term_place;
use flat_form::{Basic, Flat};
use std::alloc::Global;
use tree_model::{NoMemory, Places};

/// How far the search is with the term at a place.
#[derive(Clone, Copy, Debug, Drop)]
pub(crate) enum Mark {
    /// It was not met yet.
    New,
    /// It stands on the walk at hand.
    Open,
    /// No walk from it comes round.
    Done,
}

/// The place of a term, and the number of the argument along which the walk leads.
#[derive(Clone, Copy, Debug, Drop)]
pub(crate) struct Turn {
    pub place: usize,
    pub argument: usize,
}

/// What a search finds.
#[derive(Debug, Drop)]
pub(crate) enum Found {
    /// The path of the first walk that comes round.
    Round(Places),
    /// No walk comes round. The terms that are met are done.
    Met(Vec<Mark>),
}

// The place of the term of v, unless v is settled.
fn unsettled(b: &Basic, marks: &[Mark], v: usize) -> Option<usize>
    requires ascending { Ascends b.now }
    requires size { length marks.now ≡ length b.now }
    ensures { MatchOption result (IsSettled b.now marks.now v) (λ place. HasTermAt b.now place v × (¬ HasMark marks.now place Done)) }
{
    let place = term_place(b, v)?;
    match marks[place] {
        Mark::New => Some(place),
        Mark::Open => Some(place),
        Mark::Done => None,
    }
}

// The first argument, from the one at hand on, that is not settled, and the place of its term.
fn onward(b: &Basic, marks: &[Mark], at: Turn) -> Option<Turn>
    requires ascending { Ascends b.now }
    requires size { length marks.now ≡ length b.now }
    requires within { at.place < length b.now }
    ensures { MatchOption result (AllAreSettled b.now marks.now at) (λ next. IsOnward b.now marks.now at next) }
{
    let Flat::VarTerm(_, _, xs) = b.get(at.place) else {
        return None;
    };
    for argument in at.argument..xs.len() {
        if let Some(place) = unsettled(b, marks, *xs.get(argument)) {
            return Some(Turn { place, argument });
        }
    }
    None
}

// Marks for so many places.
fn all_new(alloc: Global, count: usize) -> Result<Vec<Mark>, NoMemory>
    ensures { IfOk result (λ marks. marks.items ≡ replicate count New) }
{
    Ok(vec![in alloc; Mark::New; count]?)
}

// The arguments along which the walk leads.
fn path(alloc: Global, walk: &[Turn]) -> Result<Places, NoMemory>
    ensures { IfOk result (λ path. path ≡ map (λ (turn : Turn). turn.argument) walk.now) }
{
    let mut path = Places::new(alloc);
    for turn in walk {
        path.push(turn.argument)?;
    }
    Ok(path)
}

/// Walks from the term at this place, in the order of the dictionary.
pub(crate) fn search(alloc: Global, b: &Basic, start: usize) -> Result<Found, NoMemory>
    requires solved { IsSolved b.now }
    requires term { (s : ℕ) × HasTermAt b.now start s }
    ensures { IfOk result (λ found. (v s : ℕ) → IsTarget b.now v s → HasTermAt b.now start s → IsFound b.now v s found) }
{
    let mut marks = all_new(alloc, b.len())?;
    let mut walk = Vec::new(alloc);
    let mut top = Turn {
        place: start,
        argument: 0,
    };
    marks[start] = Mark::Open;
    loop {
        match onward(b, marks.as_slice(), top) {
            Some(next) => {
                let turn = Turn {
                    place: top.place,
                    argument: next.argument,
                };
                walk.push(turn)?;
                if let Mark::Open = marks[next.place] {
                    return Ok(Found::Round(path(alloc, walk.as_slice())?));
                }
                marks[next.place] = Mark::Open;
                top = Turn {
                    place: next.place,
                    argument: 0,
                };
            }
            None => {
                marks[top.place] = Mark::Done;
                match walk.pop() {
                    Some(turn) => top = turn,
                    None => return Ok(Found::Met(marks)),
                }
            }
        }
    }
}
