ghost use Rattle.std.specs.Prelude.{◌≡◌, ℕ, ◌+◌, ◌++◌, [], ◌∷◌, length, map, IfOk, OnOk};
ghost use Rattle.formula_ast.specs.Forms.{form_of};
ghost use Rattle.formula_ast.specs.Terms.{list_of};
ghost use Rattle.flat_form.specs.Normals.{Norm, Norms, norm_of, norms_of, join, norm, also, none};
ghost use Rattle.flat_form.specs.Numbering.{NormOver};
ghost use Rattle.flattening.specs.Plain.{Plain, term_of, plain_of};
ghost use Rattle.flattening.specs.Numbers.{number_by};
ghost use Rattle.flattening.specs.Conditions.{HasFreeVariables, HasEntries, IsNarrow, MeansFormula};
ghost use Rattle.flattening.specs.Tables.{cubes_at};
ghost use Rattle.flattening.specs.Flattening.{equality, equality_bound, bound_of, parts_of, negation, implication, flattening_of, all_denied, with_more};

use crate::atoms::add_atoms;
use crate::cubes::deny_all;
use crate::numbers::Numbers;
use crate::terms::{
    add_equality, behind, behind_equality, behind_term, behind_terms, number_of, numbers_of, sum,
};
use crate::{Key, Solved};
use flat_form::{Basic, Normal, Normals};
use formula_ast::{Formula, Term, Terms};
use std::alloc::Global;
use tree_model::{NoMemory, Places};

// A negated conjunction of these parts alone.
#[tactic(auto, using(crate::proofs::Norms::norm_rules))]
fn none_of(alloc: Global, parts: Normals) -> Normal
    ensures { norm_of result ≡ norm 0 [] (norms_of parts) }
{
    Normal {
        bound: 0,
        basic: Basic::new(alloc),
        parts,
    }
}

// The part alone.
#[tactic(auto, using(crate::proofs::Norms::norm_rules))]
fn only(alloc: Global, part: Normal) -> Result<Normals, NoMemory>
    ensures { IfOk result (λ made. norms_of made ≡ also (norm_of part) none) }
{
    let mut parts = Normals::new(alloc);
    parts.push(part)?;
    Ok(parts)
}

// Not all of the parts hold.
#[tactic(auto, using(crate::proofs::Norms::norm_rules))]
fn some_fails(alloc: Global, first: Normal, second: Normal) -> Result<Normal, NoMemory>
    ensures { IfOk result (λ made. norm_of made ≡ norm 0 [] (also (norm_of first) (also (norm_of second) none))) }
{
    let mut parts = only(alloc, first)?;
    parts.push(second)?;
    Ok(none_of(alloc, parts))
}

// Adds that not all of the parts hold.
#[tactic(auto, using(crate::proofs::Norms::norm_rules))]
fn add_some_fails(
    alloc: Global,
    first: Normal,
    second: Normal,
    parts: &mut Normals,
) -> Result<(), NoMemory>
    ensures { OnOk result (norms_of parts.new
        ≡ join (norms_of parts.old) (also (norm 0 [] (also (norm_of first) (also (norm_of second) none))) none)) }
{
    parts.push(some_fails(alloc, first, second)?)?;
    Ok(())
}

// The negated conjunction with one more part.
fn with_part(normal: Normal, part: Normal) -> Result<Normal, NoMemory>
    ensures { IfOk result (λ made. norm_of made ≡ with_more (also (norm_of part) none) (norm_of normal)) }
{
    let Normal {
        bound,
        basic,
        mut parts,
    } = normal;
    parts.push(part)?;
    Ok(Normal {
        bound,
        basic,
        parts,
    })
}

// No values make the two terms equal.
fn differ(
    alloc: Global,
    left: &Term,
    right: &Term,
    given: &Numbers,
    scope: usize,
) -> Result<Normal, NoMemory>
    ensures { IfOk result (λ made. norm_of made
        ≡ norm (equality_bound (term_of left.now) (term_of right.now)) (equality (number_by given.now) scope (term_of left.now) (term_of right.now)) none) }
{
    let mut basic = Basic::new(alloc);
    let after = add_equality(alloc, left, right, given, scope, &mut basic)?;
    Ok(Normal {
        bound: after - scope,
        basic,
        parts: Normals::new(alloc),
    })
}

// Some cube of the entry holds at the arguments.
fn asked(
    alloc: Global,
    key: Key,
    args: &Places,
    table: &Solved,
    scope: usize,
) -> Result<Normal, NoMemory>
    ensures { IfOk result (λ made. norm_of made ≡ norm 0 [] (all_denied args.now scope (cubes_at table.now key))) }
{
    match table.find(&key) {
        Some(cubes) => {
            let parts = deny_all(alloc, cubes, args, scope)?;
            Ok(none_of(alloc, parts))
        }
        None => Ok(none_of(alloc, Normals::new(alloc))),
    }
}

// Adds the parts of the formula's conjunction, over `scope` variables, and answers the number behind its bound
// variables.
#[cycle(parts)]
fn add_parts(
    alloc: Global,
    formula: &Formula,
    given: &mut Numbers,
    table: &Solved,
    next: usize,
    scope: usize,
    parts: &mut Normals,
) -> Result<usize, NoMemory>
    ensures after { IfOk result (λ after. after ≡ next + bound_of (plain_of (form_of formula.now))) }
    ensures parts { OnOk result (norms_of parts.new
        ≡ join (norms_of parts.old) (parts_of (cubes_at table.now) (number_by given.old) next scope (plain_of (form_of formula.now)))) }
    ensures numbers { OnOk result (given.new ≡ given.old) }
{
    match formula {
        Formula::True => Ok(next),
        Formula::False => {
            parts.push(none_of(alloc, Normals::new(alloc)))?;
            Ok(next)
        }
        Formula::Eq(left, right) => behind_equality(left, right, next),
        Formula::Differ(left, right) => {
            parts.push(differ(alloc, left, right, given, scope)?)?;
            Ok(next)
        }
        Formula::Finite(term) => behind_term(term, next),
        Formula::Call(place, terms) => {
            let args = numbers_of(alloc, terms, given, next)?;
            parts.push(asked(alloc, Key::Call(*place), &args, table, scope)?)?;
            behind_terms(terms, next)
        }
        Formula::Win(place, moves, term) => {
            let mut args = Places::new(alloc);
            args.push(number_of(term, given, next))?;
            parts.push(asked(alloc, Key::Win(*place, *moves), &args, table, scope)?)?;
            behind_term(term, next)
        }
        Formula::Not(body) => {
            parts.push(negated(alloc, body.get(), given, table, scope)?)?;
            Ok(next)
        }
        Formula::And(left, right) => {
            let after = add_parts(alloc, left.get(), given, table, next, scope, parts)?;
            let last = add_parts(alloc, right.get(), given, table, after, scope, parts)?;
            Ok(last)
        }
        Formula::Or(left, right) => {
            let first = negated(alloc, left.get(), given, table, scope)?;
            let other = negated(alloc, right.get(), given, table, scope)?;
            add_some_fails(alloc, first, other, parts)?;
            Ok(next)
        }
        Formula::Imp(left, right) => {
            let premise = negated(alloc, left.get(), given, table, scope)?;
            parts.push(implied(alloc, right.get(), premise, given, table, scope)?)?;
            Ok(next)
        }
        Formula::Iff(left, right) => {
            let first = negated(alloc, left.get(), given, table, scope)?;
            parts.push(implied(alloc, right.get(), first, given, table, scope)?)?;
            let second = negated(alloc, right.get(), given, table, scope)?;
            parts.push(implied(alloc, left.get(), second, given, table, scope)?)?;
            Ok(next)
        }
        Formula::Exists(variable, body) => {
            given.give(*variable, next)?;
            let after = add_parts(alloc, body.get(), given, table, behind(next)?, scope, parts)?;
            given.take_back();
            Ok(after)
        }
        Formula::Forall(variable, body) => {
            given.give(*variable, scope)?;
            let part = negated(alloc, body.get(), given, table, behind(scope)?)?;
            given.take_back();
            parts.push(Normal {
                bound: 1,
                basic: Basic::new(alloc),
                parts: only(alloc, part)?,
            })?;
            Ok(next)
        }
    }
}

// The formula's conjunction, negated, over `scope` variables.
#[cycle(parts)]
fn negated(
    alloc: Global,
    formula: &Formula,
    given: &mut Numbers,
    table: &Solved,
    scope: usize,
) -> Result<Normal, NoMemory>
    ensures normal { IfOk result (λ made. norm_of made ≡ negation (cubes_at table.now) (number_by given.old) scope (plain_of (form_of formula.now))) }
    ensures numbers { OnOk result (given.new ≡ given.old) }
{
    let mut basic = Basic::new(alloc);
    let after = add_atoms(alloc, formula, given, scope, &mut basic)?;
    let mut parts = Normals::new(alloc);
    add_parts(alloc, formula, given, table, scope, after, &mut parts)?;
    Ok(Normal {
        bound: after - scope,
        basic,
        parts,
    })
}

// The premise, a negated conjunction, with the formula as one more part, negated too: it follows from the premise.
#[cycle(parts)]
fn implied(
    alloc: Global,
    formula: &Formula,
    premise: Normal,
    given: &mut Numbers,
    table: &Solved,
    scope: usize,
) -> Result<Normal, NoMemory>
    ensures normal { (left : Plain) → norm_of premise ≡ negation (cubes_at table.now) (number_by given.old) scope left
        → IfOk result (λ made. norm_of made ≡ implication (cubes_at table.now) (number_by given.old) scope left (plain_of (form_of formula.now))) }
    ensures numbers { OnOk result (given.new ≡ given.old) }
{
    let after = sum(scope, premise.bound)?;
    let conclusion = negated(alloc, formula, given, table, after)?;
    let implied = with_part(premise, conclusion)?;
    Ok(implied)
}

/// The negated conjunction that holds, over as many variables as `ranks` has, exactly where the formula does, with the
/// variable `ranks[i]` as number i.
///
/// Where a sum of counts of variables would pass the greatest number the answer is `NoMemory`.
pub fn flatten(
    alloc: Global,
    f: &Formula,
    ranks: &Places,
    table: &Solved,
) -> Result<Normal, NoMemory>
    ensures normal { IfOk result (λ made. norm_of made ≡ flattening_of ranks.now table.now (form_of f.now)) }
    ensures meaning { IfOk result (λ made. HasFreeVariables ranks.now (form_of f.now) → HasEntries table.now (plain_of (form_of f.now))
        → MeansFormula ranks.now table.now (form_of f.now) (norm_of made)) }
    ensures well_numbered { IfOk result (λ made. HasFreeVariables ranks.now (form_of f.now) → IsNarrow (plain_of (form_of f.now))
        → HasEntries table.now (plain_of (form_of f.now)) → NormOver (length ranks.now) (norm_of made)) }
{
    let mut given = Numbers::of_ranks(alloc, ranks)?;
    let part = negated(alloc, f, &mut given, table, ranks.len())?;
    let parts = only(alloc, part)?;
    Ok(none_of(alloc, parts))
}
