//! Lists of cubes as formulas.
ghost use Rattle.std.specs.Prelude.{◌≡◌, [], ◌++◌, ◌↔◌, length, max, All, List, IfOk, OnOk};
ghost use Rattle.lists.specs.Distinct.{IsDistinct};
ghost use Rattle.tree_model.specs.Signatures.{Signature};
ghost use Rattle.tree_model.specs.Valuations.{Valuation};
ghost use Rattle.formula_ast.specs.declared.pred.Pred.{Pred};
ghost use Rattle.formula_ast.specs.declared.token.TokenKind.TheVariants as word;
ghost use Rattle.formula_ast.specs.Forms.{form_of};
ghost use Rattle.formula_ast.specs.Satisfaction.{Holds, meaning_of};
ghost use Rattle.formula_ast.specs.WellFormed.{AreWords, AreDistinct, IsStatementOver};
ghost use Rattle.flat_form.specs.Meanings.{SomeHolds};
ghost use Rattle.flat_form.specs.Numbering.{CubesOver};
ghost use Rattle.flat_form.specs.Reduced.{IsReduced};
ghost use Rattle.flat_form.specs.Symbols.{CubesFit};
ghost use Rattle.explicit_form.specs.Explicit as spec;
ghost use Rattle.explicit_form.specs.Explicit.{explicit_of, explicit_names};
ghost use Rattle.explicit_form.specs.Shape.{IsExplicit, IsNotEmpty};

use crate::cubes::disjunction_of;
use flat_form::{Cubes, Parts};
use formula_ast::{Names, Statement};
use formula_printer::bound_names;
use lists::{Copied, NoMemory};
use std::alloc::Global;

// The larger of two numbers.
fn larger(a: usize, b: usize) -> usize
    ensures { result ≡ max a b }
{
    if a < b { b } else { a }
}

// The greatest number of variables that a part binds.
fn widest(parts: &Parts) -> usize
    ensures { result ≡ spec.widest parts.now }
{
    let mut most = 0;
    for part in parts.as_slice() {
        most = larger(most, part.inner);
    }
    most
}

// The greatest number of variables that a cube and one of its parts bind together.
fn width(cubes: &Cubes) -> Result<usize, NoMemory>
    ensures { IfOk result (λ most. most ≡ spec.width cubes.now) }
{
    let mut most: usize = 0;
    for cube in cubes.as_slice() {
        let Some(here) = cube.outer.checked_add(widest(&cube.parts)) else {
            return Err(NoMemory);
        };
        most = larger(most, here);
    }
    Ok(most)
}

// Adds the names to those that stand there.
fn add_names(alloc: Global, names: &Names, all: &mut Names) -> Result<(), NoMemory>
    ensures { OnOk result (all.new ≡ all.old ++ names.now) }
{
    for name in names.as_slice() {
        all.push(name.copy(alloc)?)?;
    }
    Ok(())
}

// The names of all variables of the formula.
pub(crate) fn all_names(alloc: Global, cubes: &Cubes, names: &Names) -> Result<Names, NoMemory>
    ensures { IfOk result (λ all. all ≡ explicit_names names.now cubes.now) }
{
    let bound = bound_names(alloc, names, width(cubes)?)?;
    let mut all = names.copy(alloc)?;
    add_names(alloc, &bound, &mut all)?;
    Ok(all)
}

/// The formula of a list of reduced cubes over the free variables with these names: the disjunction of its cubes, each
/// `exists V0 V1: (X = f(V0) & .. & ~(..) & ..)`. The names of the bound variables are the first of `V0`, `V1`, and so on
/// that are no names of free ones.
pub fn explicit(alloc: Global, cubes: &Cubes, names: &Names) -> Result<Statement, NoMemory>
    requires some { ¬ (cubes.now ≡ []) }
    requires over { CubesOver (length names.now) cubes.now }
    requires reduced { All IsReduced cubes.now }
    requires distinct { IsDistinct cubes.now }
    requires nonempty { All IsNotEmpty cubes.now }
    requires words { AreWords word.Variable names.now }
    requires apart { AreDistinct names.now }
    ensures names { IfOk result (λ s. s.names ≡ explicit_names names.now cubes.now) }
    ensures body { IfOk result (λ s. form_of s.body ≡ explicit_of cubes.now) }
    ensures shape { IfOk result (λ s. IsExplicit (length names.now) (form_of s.body)) }
    ensures meaning { IfOk result (λ s. (σ : Signature) (preds : List Pred) (e : Valuation σ)
        → Holds σ (meaning_of σ preds) (form_of s.body) e ↔ SomeHolds e cubes.now) }
    ensures well_formed { IfOk result (λ s. (σ : Signature) → CubesFit σ cubes.now → IsStatementOver σ s) }
{
    Ok(Statement {
        names: all_names(alloc, cubes, names)?,
        body: disjunction_of(alloc, cubes)?,
    })
}
