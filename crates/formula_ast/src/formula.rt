ghost use Rattle.std.specs.Prelude.{◌≡◌, IfOk};

use crate::{Term, Terms};
use sqlite_items::Boxed;
use std::alloc::Global;
use tree_model::NoMemory;

/// A formula. A variable is a position in a list of names, and a quantifier binds its position anew within its body.
/// Predicates are named by their places in the signature.
#[derive(Debug, Drop)]
pub enum Formula {
    True,
    False,
    Eq(Term, Term),
    Differ(Term, Term),
    Finite(Term),
    /// A predicate at its arguments.
    Call(usize, Terms),
    /// The player to move at the term wins within so many moves of its own, where the predicate says which
    /// moves there are.
    Win(usize, u64, Term),
    Not(Boxed<Formula>),
    And(Boxed<Formula>, Boxed<Formula>),
    Or(Boxed<Formula>, Boxed<Formula>),
    Imp(Boxed<Formula>, Boxed<Formula>),
    Iff(Boxed<Formula>, Boxed<Formula>),
    Exists(usize, Boxed<Formula>),
    Forall(usize, Boxed<Formula>),
}

// A formula in a box.
pub(crate) fn boxed(alloc: Global, f: Formula) -> Result<Boxed<Formula>, NoMemory>
    ensures { IfOk result (λ b. b ≡ f) }
{
    Ok(Boxed::new(alloc, f)?)
}

impl Formula {
    /// An equal formula.
    #[cycle(copy)]
    pub fn copy(&self, alloc: Global) -> Result<Formula, NoMemory>
        ensures { IfOk result (λ copy. copy ≡ self.now) }
    {
        match self {
            Formula::True => Ok(Formula::True),
            Formula::False => Ok(Formula::False),
            Formula::Eq(t, s) => Ok(Formula::Eq(t.copy(alloc)?, s.copy(alloc)?)),
            Formula::Differ(t, s) => Ok(Formula::Differ(t.copy(alloc)?, s.copy(alloc)?)),
            Formula::Finite(t) => Ok(Formula::Finite(t.copy(alloc)?)),
            Formula::Call(p, ts) => Ok(Formula::Call(*p, ts.copy(alloc)?)),
            Formula::Win(p, k, t) => Ok(Formula::Win(*p, *k, t.copy(alloc)?)),
            Formula::Not(f) => Ok(Formula::Not(copy_boxed(alloc, f)?)),
            Formula::And(f, g) => Ok(Formula::And(copy_boxed(alloc, f)?, copy_boxed(alloc, g)?)),
            Formula::Or(f, g) => Ok(Formula::Or(copy_boxed(alloc, f)?, copy_boxed(alloc, g)?)),
            Formula::Imp(f, g) => Ok(Formula::Imp(copy_boxed(alloc, f)?, copy_boxed(alloc, g)?)),
            Formula::Iff(f, g) => Ok(Formula::Iff(copy_boxed(alloc, f)?, copy_boxed(alloc, g)?)),
            Formula::Exists(x, f) => Ok(Formula::Exists(*x, copy_boxed(alloc, f)?)),
            Formula::Forall(x, f) => Ok(Formula::Forall(*x, copy_boxed(alloc, f)?)),
        }
    }
}

#[cycle(copy)]
fn copy_boxed(alloc: Global, f: &Boxed<Formula>) -> Result<Boxed<Formula>, NoMemory>
    ensures { IfOk result (λ copy. copy ≡ f.now) }
{
    let copied = f.get().copy(alloc)?;
    boxed(alloc, copied)
}
