//! The equation of a variable in a solved conjunction, by binary search.
ghost use Rattle.std.specs.Prelude.{◌≡◌, ℕ, ◌<◌, ◌≤◌, length, MatchOption};
ghost use Rattle.flat_form.specs.declared.atom.Flat.{Flat};
ghost use Rattle.flat_form.specs.Solved.{variable_of, Ascends, HasTerm};
ghost use Rattle.flat_facts.specs.Spread.{IsTarget};
ghost use Rattle.finiteness.specs.Places.{StandsAt, HasTermAt};

use flat_form::{Basic, Flat};

// The variable that an atom stands for.
fn variable(atom: &Flat) -> usize
    ensures { result ≡ variable_of atom.now }
{
    match atom {
        Flat::VarVar(u, _) => *u,
        Flat::VarTerm(u, _, _) => *u,
        Flat::Finite(u) => *u,
    }
}

// The first place whose variable is not below v.
fn first_from(b: &Basic, v: usize) -> usize
    requires { Ascends b.now }
    ensures within { result ≤ length b.now }
    ensures before { (i : ℕ) (atom : Flat) → StandsAt b.now i atom → i < result → variable_of atom < v }
    ensures from { (i : ℕ) (atom : Flat) → StandsAt b.now i atom → result ≤ i → v ≤ variable_of atom }
{
    let mut low = 0;
    let mut high = b.len();
    while low < high {
        let middle = low + (high - low) / 2;
        if variable(b.get(middle)) < v {
            low = middle + 1;
        } else {
            high = middle;
        }
    }
    low
}

/// What v equals; where no equation says so, v itself.
pub(crate) fn target(b: &Basic, v: usize) -> usize
    requires { Ascends b.now }
    ensures { IsTarget b.now v result }
{
    let place = first_from(b, v);
    if place == b.len() {
        return v;
    }
    match b.get(place) {
        Flat::VarVar(u, r) => if *u == v { *r } else { v },
        Flat::VarTerm(_, _, _) => v,
        Flat::Finite(_) => v,
    }
}

/// The place of the equation of v with a term.
pub(crate) fn term_place(b: &Basic, v: usize) -> Option<usize>
    requires { Ascends b.now }
    ensures { MatchOption result (¬ HasTerm b.now v) (λ place. HasTermAt b.now place v) }
{
    let place = first_from(b, v);
    if place == b.len() {
        return None;
    }
    match b.get(place) {
        Flat::VarVar(_, _) => None,
        Flat::VarTerm(u, _, _) => if *u == v { Some(place) } else { None },
        Flat::Finite(_) => None,
    }
}
