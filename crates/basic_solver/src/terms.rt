//! For each class a term of it.
ghost use Rattle.std.specs.Prelude.{◌≡◌, ◌<◌, length, slice_index_or, None, IfOk, MatchOption};
ghost use Rattle.flat_form.specs.Numbering.{AtomOver, BasicOver};
ghost use Rattle.basic_solver.specs.Flags.{AreNames};
ghost use Rattle.basic_solver.specs.Terms.{with_term, IsTermAt, HavePlaces, AreTerms};

use flat_form::{Basic, Flat};
use std::alloc::Global;
use tree_model::NoMemory;

// Notes the place of a term for the class of its variable.
fn note(names: &[usize], terms: &mut Vec<Option<usize>>, atom: &Flat, i: usize)
    requires names { AreNames names.now }
    requires size { length terms.old.items ≡ length names.now }
    requires over { AtomOver (length names.now) atom.now }
    ensures { terms.new.items ≡ with_term names.now atom.now i terms.old.items }
{
    match atom {
        Flat::VarVar(_, _) => {}
        Flat::VarTerm(u, _, _) => {
            let name = names[*u];
            terms[name] = Some(i);
        }
        Flat::Finite(_) => {}
    }
}

// For each name, the place of a term of its class.
pub(crate) fn terms_of(
    alloc: Global,
    names: &[usize],
    atoms: &Basic,
) -> Result<Vec<Option<usize>>, NoMemory>
    requires names { AreNames names.now }
    requires over { BasicOver (length names.now) atoms.now }
    ensures { IfOk result (λ terms. AreTerms names.now atoms.now terms.items) }
{
    let Ok(mut terms) = vec![in alloc; None; names.len()] else {
        return Err(NoMemory);
    };
    for i in 0..atoms.len() {
        note(names, &mut terms, atoms.get(i), i);
    }
    Ok(terms)
}

// The term that is noted for the name.
pub(crate) fn term_of<'a>(
    terms: &[Option<usize>],
    atoms: &'a Basic,
    name: usize,
) -> Option<&'a Flat>
    requires within { name < length terms.now }
    requires places { HavePlaces (length atoms.now) terms.now }
    ensures { MatchOption result (slice_index_or terms.now name None ≡ None) (λ term. IsTermAt terms.now atoms.now name term.now) }
{
    match terms[name] {
        Some(j) => Some(atoms.get(j)),
        None => None,
    }
}
