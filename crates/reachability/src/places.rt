//! Where the atoms of variables stand.
ghost use Rattle.std.specs.Prelude.{ℕ, ◌≡◌, ◌<◌, List, length, IfOk, MatchOption, Contains};
ghost use Rattle.tree_model.specs.declared.tree.Symbol.{Symbol};
ghost use Rattle.flat_form.specs.declared.atom.Flat.{Flat};
ghost use Rattle.flat_form.specs.declared.atom.Flat.TheVariants.{VarTerm};
ghost use Rattle.flat_form.specs.Numbering.{BasicOver};
ghost use Rattle.flat_form.specs.Solved.{variable_of, Ascends};
ghost use Rattle.reachability.specs.Places.{ArePlaces};

use flat_form::{Basic, Flat, variable};
use lists::NoMemory;
use std::alloc::Global;

/// For each variable below `count` the place of an atom of it, where it has one.
pub fn places_of(alloc: Global, count: usize, atoms: &Basic) -> Result<Vec<Option<usize>>, NoMemory>
    requires over { BasicOver count atoms.now }
    ensures size { IfOk result (λ places. length places.items ≡ count) }
    ensures places { IfOk result (λ places. ArePlaces (length atoms.now) atoms.now places.items) }
{
    let mut places = vec![in alloc; None; count]?;
    for i in 0..atoms.len() {
        let v = variable(atoms.get(i));
        places[v] = Some(i);
    }
    Ok(places)
}

/// The atom that the table has for the variable. It takes no memory.
pub fn atom_of<'a>(places: &[Option<usize>], atoms: &'a Basic, v: usize) -> Option<&'a Flat>
    requires within { v < length places.now }
    requires places { ArePlaces (length atoms.now) atoms.now places.now }
    ensures { MatchOption result ((atom : Flat) → Contains atoms.now atom → ¬ (variable_of atom ≡ v))
        (λ atom. Contains atoms.now atom.now × (variable_of atom.now ≡ v)) }
{
    match places[v] {
        Some(i) => Some(atoms.get(i)),
        None => None,
    }
}

// The arguments of the atom's term, where it has one.
fn arguments_of(atom: &Flat) -> Option<&[usize]>
    ensures { MatchOption result ((u : ℕ) (symbol : Symbol) (xs : List ℕ) → ¬ (atom.now ≡ VarTerm u symbol xs))
        (λ xs. (symbol : Symbol) × (atom.now ≡ VarTerm (variable_of atom.now) symbol xs.now)) }
{
    match atom {
        Flat::VarVar(_, _) => None,
        Flat::VarTerm(_, _, xs) => Some(xs.as_slice()),
        Flat::Finite(_) => None,
    }
}

/// The arguments of the variable's term, where it has one. It takes no memory.
pub fn term_of<'a>(places: &[Option<usize>], atoms: &'a Basic, v: usize) -> Option<&'a [usize]>
    requires within { v < length places.now }
    requires places { ArePlaces (length atoms.now) atoms.now places.now }
    requires ascends { Ascends atoms.now }
    ensures { MatchOption result ((symbol : Symbol) (xs : List ℕ) → ¬ Contains atoms.now (VarTerm v symbol xs))
        (λ xs. (symbol : Symbol) × Contains atoms.now (VarTerm v symbol xs.now)) }
{
    match atom_of(places, atoms, v) {
        Some(atom) => arguments_of(atom),
        None => None,
    }
}
