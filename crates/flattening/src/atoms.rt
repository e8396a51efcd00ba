ghost use Rattle.std.specs.Prelude.{◌≡◌, ℕ, ◌+◌, ◌++◌, IfOk, OnOk};
ghost use Rattle.formula_ast.specs.Forms.{form_of};
ghost use Rattle.flattening.specs.Plain.{plain_of};
ghost use Rattle.flattening.specs.Numbers.{number_by};
ghost use Rattle.flattening.specs.Flattening.{bound_of, atoms_of};

use crate::numbers::Numbers;
use crate::terms::{add_equality, add_whole, add_wholes, behind, number_of};
use flat_form::{Basic, Flat};
use formula_ast::Formula;
use std::alloc::Global;
use tree_model::NoMemory;

// Adds the atoms of the formula's conjunction, and answers the number behind its bound variables.
pub(crate) fn add_atoms(
    alloc: Global,
    formula: &Formula,
    given: &mut Numbers,
    next: usize,
    basic: &mut Basic,
) -> Result<usize, NoMemory>
    ensures after { IfOk result (λ after. after ≡ next + bound_of (plain_of (form_of formula.now))) }
    ensures atoms { OnOk result (basic.new ≡ basic.old ++ atoms_of (number_by given.old) next (plain_of (form_of formula.now))) }
    ensures numbers { OnOk result (given.new ≡ given.old) }
{
    match formula {
        Formula::True => Ok(next),
        Formula::False => Ok(next),
        Formula::Eq(left, right) => add_equality(alloc, left, right, given, next, basic),
        Formula::Differ(_, _) => Ok(next),
        Formula::Finite(term) => {
            let after = add_whole(alloc, term, given, next, basic)?;
            basic.push(Flat::Finite(number_of(term, given, next)))?;
            Ok(after)
        }
        Formula::Call(_, terms) => add_wholes(alloc, terms, given, next, basic),
        Formula::Win(_, _, term) => {
            let after = add_whole(alloc, term, given, next, basic)?;
            Ok(after)
        }
        Formula::Not(_) => Ok(next),
        Formula::And(left, right) => {
            let after = add_atoms(alloc, left.get(), given, next, basic)?;
            let last = add_atoms(alloc, right.get(), given, after, basic)?;
            Ok(last)
        }
        Formula::Or(_, _) => Ok(next),
        Formula::Imp(_, _) => Ok(next),
        Formula::Iff(_, _) => Ok(next),
        Formula::Exists(variable, body) => {
            given.give(*variable, next)?;
            let after = add_atoms(alloc, body.get(), given, behind(next)?, basic)?;
            given.take_back();
            Ok(after)
        }
        Formula::Forall(_, _) => Ok(next),
    }
}
