//! Whether a formula is put together as an explicit cube is.
ghost use Rattle.std.specs.Prelude.{◌↔◌, ◌⊎◌, IsTrue};
ghost use Rattle.formula_ast.specs.Forms.{form_of};
ghost use Rattle.explicit_form.specs.Shaped.{IsAtom, AreAtoms, AreBound, IsDenied, IsPart, AreItems, IsShaped};

use crate::terms::{is_flat, is_variable};
use formula_ast::Formula;

// Whether it is an atom.
fn is_atom(f: &Formula) -> bool
    ensures { IsTrue result ↔ IsAtom (form_of f.now) }
{
    match f {
        Formula::Eq(t, s) => is_variable(t) && is_flat(s),
        Formula::Finite(t) => is_variable(t),
        _ => false,
    }
}

// Whether it is a conjunction of atoms.
fn are_atoms(f: &Formula) -> bool
    ensures { IsTrue result ↔ AreAtoms (form_of f.now) }
{
    match f {
        Formula::And(g, h) => are_atoms(g.get()) && is_atom(h.get()),
        _ => is_atom(f),
    }
}

// Whether it is a conjunction of atoms behind quantifiers.
fn are_bound(f: &Formula) -> bool
    ensures { IsTrue result ↔ AreBound (form_of f.now) }
{
    match f {
        Formula::Exists(_, g) => are_bound(g.get()),
        _ => are_atoms(f),
    }
}

// Whether it may stand behind `no`.
fn is_denied(f: &Formula) -> bool
    ensures { IsTrue result ↔ IsDenied (form_of f.now) }
{
    match f {
        Formula::Exists(_, g) => are_bound(g.get()),
        Formula::Eq(_, _) => false,
        _ => are_atoms(f),
    }
}

// Whether it is a part.
fn is_part(f: &Formula) -> bool
    ensures { IsTrue result ↔ IsPart (form_of f.now) }
{
    match f {
        Formula::Differ(t, s) => is_variable(t) && is_flat(s),
        Formula::Not(g) => is_denied(g.get()),
        _ => false,
    }
}

// Whether the first formula is a conjunction of atoms and the second one an atom.
fn are_all_atoms(g: &Formula, h: &Formula) -> bool
    ensures { IsTrue result ↔ (AreAtoms (form_of g.now) × IsAtom (form_of h.now)) }
{
    are_atoms(g) && is_atom(h)
}

// Whether it is a conjunction of atoms and then of parts.
fn are_items(f: &Formula) -> bool
    ensures { IsTrue result ↔ AreItems (form_of f.now) }
{
    match f {
        Formula::And(g, h) => {
            are_all_atoms(g.get(), h.get()) || (are_items(g.get()) && is_part(h.get()))
        }
        _ => is_atom(f) || is_part(f),
    }
}

// Whether it is a conjunction of atoms and then of parts behind quantifiers.
pub(crate) fn is_shaped(f: &Formula) -> bool
    ensures { IsTrue result ↔ IsShaped (form_of f.now) }
{
    match f {
        Formula::Exists(_, g) => is_shaped(g.get()),
        _ => are_items(f),
    }
}
