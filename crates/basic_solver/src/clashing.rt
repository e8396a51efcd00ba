//! Whether two terms of one class clash.
ghost use Rattle.std.specs.Prelude.{◌≡◌, ◌<◌, length, IsTrue, ◌↔◌, All};
ghost use Rattle.flat_form.specs.Numbering.{AtomOver, BasicOver};
ghost use Rattle.basic_solver.specs.Flags.{AreNames, Agrees, AllAgree};
ghost use Rattle.basic_solver.specs.Terms.{HavePlaces, AreTerms, AgreesWithNoted};

use crate::terms::term_of;
use flat_form::{Basic, Flat};

// Whether the two terms agree, where they are of one class.
fn agree(names: &[usize], a: &Flat, b: &Flat) -> bool
    requires left { AtomOver (length names.now) a.now }
    requires right { AtomOver (length names.now) b.now }
    ensures { IsTrue result ↔ Agrees names.now a.now b.now }
{
    let Flat::VarTerm(u, symbol, xs) = a else {
        return true;
    };
    let Flat::VarTerm(v, other, ys) = b else {
        return true;
    };
    names[*u] != names[*v] || *symbol == *other && xs.len() == ys.len()
}

// Whether the atom agrees with the term that is noted for its class.
fn agrees_with_noted(names: &[usize], terms: &[Option<usize>], atoms: &Basic, atom: &Flat) -> bool
    requires names { AreNames names.now }
    requires size { length terms.now ≡ length names.now }
    requires places { HavePlaces (length atoms.now) terms.now }
    requires over { BasicOver (length names.now) atoms.now }
    requires one { AtomOver (length names.now) atom.now }
    ensures { IsTrue result ↔ AgreesWithNoted names.now terms.now atoms.now atom.now }
{
    let Flat::VarTerm(u, _, _) = atom else {
        return true;
    };
    match term_of(terms, atoms, names[*u]) {
        Some(term) => agree(names, atom, term),
        None => true,
    }
}

// Whether each two atoms agree.
pub(crate) fn all_agree(names: &[usize], terms: &[Option<usize>], atoms: &Basic) -> bool
    requires names { AreNames names.now }
    requires terms { AreTerms names.now atoms.now terms.now }
    requires over { BasicOver (length names.now) atoms.now }
    ensures { IsTrue result ↔ AllAgree names.now atoms.now }
{
    for i in 0..atoms.len() {
        if !agrees_with_noted(names, terms, atoms, atoms.get(i)) {
            return false;
        }
    }
    true
}
