ghost use Rattle.std.specs.Prelude.{◌≡◌, ℕ, ◌+◌, ◌++◌, IfOk, OnOk};
ghost use Rattle.formula_ast.specs.Terms.{list_of};
ghost use Rattle.flattening.specs.Plain.{term_of, terms_of};
ghost use Rattle.flattening.specs.Numbers.{number_by};
ghost use Rattle.flattening.specs.Flattening.{alone, wide, wides, inside, applied, arguments, equations, deeper, equation, equality, equality_bound, number, whole, numbers, wholes};

use crate::numbers::Numbers;
use flat_form::{Args, Basic, Flat};
use formula_ast::{Term, Terms};
use std::alloc::Global;
use tree_model::{NoMemory, Places};

// The sum of two counts of variables.
pub(crate) fn sum(first: usize, second: usize) -> Result<usize, NoMemory>
    ensures { IfOk result (λ sum. sum ≡ first + second) }
{
    match first.checked_add(second) {
        Some(sum) => Ok(sum),
        None => Err(NoMemory),
    }
}

// The number behind this one.
pub(crate) fn behind(number: usize) -> Result<usize, NoMemory>
    ensures { IfOk result (λ after. after ≡ number + 1) }
{
    sum(number, 1)
}

// The number behind the new variable that a term takes for itself, if it takes one.
#[tactic(auto, using(crate::proofs::Ties::term_rules))]
fn behind_itself(term: &Term, next: usize) -> Result<usize, NoMemory>
    ensures { IfOk result (λ after. after ≡ next + alone (term_of term.now)) }
{
    match term {
        Term::Var(_) => Ok(next),
        Term::App(_, _) => behind(next),
    }
}

// The number behind the new variables of a whole term, of which the first is `next`.
#[cycle(behind)]
#[tactic(auto, using(crate::proofs::Ties::term_rules))]
pub(crate) fn behind_term(term: &Term, next: usize) -> Result<usize, NoMemory>
    ensures { IfOk result (λ after. after ≡ next + wide (term_of term.now)) }
{
    match term {
        Term::Var(_) => Ok(next),
        Term::App(_, terms) => behind_terms(terms, behind(next)?),
    }
}

// The same for whole terms, one after another.
#[cycle(behind)]
#[tactic(auto, using(crate::proofs::Ties::term_rules))]
pub(crate) fn behind_terms(terms: &Terms, next: usize) -> Result<usize, NoMemory>
    ensures { IfOk result (λ after. after ≡ next + wides (terms_of (list_of terms.now))) }
{
    let mut after = next;
    for term in terms.as_slice() {
        after = behind_term(term, after)?;
    }
    Ok(after)
}

// The same for the equality of two terms.
#[tactic(auto, using(crate::proofs::Ties::term_rules))]
pub(crate) fn behind_equality(left: &Term, right: &Term, next: usize) -> Result<usize, NoMemory>
    ensures { IfOk result (λ after. after ≡ next + equality_bound (term_of left.now) (term_of right.now)) }
{
    match (left, right) {
        (Term::Var(_), Term::Var(_)) => Ok(next),
        (Term::Var(_), Term::App(_, terms)) => behind_terms(terms, next),
        (Term::App(_, terms), Term::Var(_)) => behind_terms(terms, next),
        (Term::App(_, terms), Term::App(_, more)) => {
            let after = behind_terms(terms, behind(next)?)?;
            behind_terms(more, after)
        }
    }
}

// The number of a term: a variable's own, and the next one for another term.
#[tactic(auto, using(crate::proofs::Ties::term_rules))]
pub(crate) fn number_of(term: &Term, given: &Numbers, next: usize) -> usize
    ensures { result ≡ number (number_by given.now) next (term_of term.now) }
{
    match term {
        Term::Var(variable) => given.of(*variable),
        Term::App(_, _) => next,
    }
}

// The numbers of the arguments of a symbol, and the number behind the new ones among them.
fn arguments_of(
    alloc: Global,
    terms: &Terms,
    given: &Numbers,
    next: usize,
) -> Result<(Args, usize), NoMemory>
    ensures { IfOk result (λ made. (made.0 ≡ arguments (number_by given.now) next (terms_of (list_of terms.now)))
        × (made.1 ≡ next + applied (terms_of (list_of terms.now)))) }
{
    let mut args = Args::new(alloc);
    let mut after = next;
    for term in terms.as_slice() {
        args.push(number_of(term, given, after))?;
        after = behind_itself(term, after)?;
    }
    Ok((args, after))
}

// Adds the equations of a term that has the number `left`, and answers the number behind their new variables. A
// variable has none.
#[cycle(equations)]
#[tactic(auto, using(crate::proofs::Ties::term_rules))]
fn add_equations(
    alloc: Global,
    left: usize,
    term: &Term,
    given: &Numbers,
    next: usize,
    basic: &mut Basic,
) -> Result<usize, NoMemory>
    ensures after { IfOk result (λ after. after ≡ next + inside (term_of term.now)) }
    ensures atoms { OnOk result (basic.new ≡ basic.old ++ equations (number_by given.now) left next (term_of term.now)) }
{
    match term {
        Term::Var(_) => Ok(next),
        Term::App(symbol, terms) => {
            let (args, after) = arguments_of(alloc, terms, given, next)?;
            basic.push(Flat::VarTerm(left, *symbol, args))?;
            let after = add_deeper(alloc, next, terms, given, after, basic)?;
            Ok(after)
        }
    }
}

// Adds the equations of the arguments, of which those that are no variables have the numbers from `first` on.
#[cycle(equations)]
#[tactic(auto, using(crate::proofs::Ties::term_rules))]
fn add_deeper(
    alloc: Global,
    first: usize,
    terms: &Terms,
    given: &Numbers,
    next: usize,
    basic: &mut Basic,
) -> Result<usize, NoMemory>
    ensures after { IfOk result (λ after. after + applied (terms_of (list_of terms.now)) ≡ next + wides (terms_of (list_of terms.now))) }
    ensures atoms { OnOk result (basic.new ≡ basic.old ++ deeper (number_by given.now) first next (terms_of (list_of terms.now))) }
{
    let mut left = first;
    let mut after = next;
    for term in terms.as_slice() {
        after = add_equations(alloc, left, term, given, after, basic)?;
        left = behind_itself(term, left)?;
    }
    Ok(after)
}

// The variable with the number `left` equals the term: adds the equations, and answers the number behind their new
// variables.
#[tactic(auto, using(crate::proofs::Ties::term_rules))]
fn add_equation(
    alloc: Global,
    left: usize,
    term: &Term,
    given: &Numbers,
    next: usize,
    basic: &mut Basic,
) -> Result<usize, NoMemory>
    ensures after { IfOk result (λ after. after ≡ next + inside (term_of term.now)) }
    ensures atoms { OnOk result (basic.new ≡ basic.old ++ equation (number_by given.now) left next (term_of term.now)) }
{
    match term {
        Term::Var(variable) => {
            basic.push(Flat::VarVar(left, given.of(*variable)))?;
            Ok(next)
        }
        Term::App(_, _) => add_equations(alloc, left, term, given, next, basic),
    }
}

// Adds the equations of a whole term, whose number is `next` where it is no variable, and answers the number behind
// its new variables.
pub(crate) fn add_whole(
    alloc: Global,
    term: &Term,
    given: &Numbers,
    next: usize,
    basic: &mut Basic,
) -> Result<usize, NoMemory>
    ensures after { IfOk result (λ after. after ≡ next + wide (term_of term.now)) }
    ensures atoms { OnOk result (basic.new ≡ basic.old ++ whole (number_by given.now) next (term_of term.now)) }
{
    let after = behind_itself(term, next)?;
    add_equations(alloc, next, term, given, after, basic)
}

// The same for whole terms, one after another.
pub(crate) fn add_wholes(
    alloc: Global,
    terms: &Terms,
    given: &Numbers,
    next: usize,
    basic: &mut Basic,
) -> Result<usize, NoMemory>
    ensures after { IfOk result (λ after. after ≡ next + wides (terms_of (list_of terms.now))) }
    ensures atoms { OnOk result (basic.new ≡ basic.old ++ wholes (number_by given.now) next (terms_of (list_of terms.now))) }
{
    let mut after = next;
    for term in terms.as_slice() {
        after = add_whole(alloc, term, given, after, basic)?;
    }
    Ok(after)
}

// The numbers of whole terms.
pub(crate) fn numbers_of(
    alloc: Global,
    terms: &Terms,
    given: &Numbers,
    next: usize,
) -> Result<Places, NoMemory>
    ensures { IfOk result (λ made. made ≡ numbers (number_by given.now) next (terms_of (list_of terms.now))) }
{
    let mut made = Places::new(alloc);
    let mut after = next;
    for term in terms.as_slice() {
        made.push(number_of(term, given, after))?;
        after = behind_term(term, after)?;
    }
    Ok(made)
}

// The terms are equal: adds the equations, and answers the number behind their new variables.
#[tactic(auto, using(crate::proofs::Ties::term_rules))]
pub(crate) fn add_equality(
    alloc: Global,
    left: &Term,
    right: &Term,
    given: &Numbers,
    next: usize,
    basic: &mut Basic,
) -> Result<usize, NoMemory>
    ensures after { IfOk result (λ after. after ≡ next + equality_bound (term_of left.now) (term_of right.now)) }
    ensures atoms { OnOk result (basic.new ≡ basic.old ++ equality (number_by given.now) next (term_of left.now) (term_of right.now)) }
{
    match (left, right) {
        (Term::Var(variable), _) => {
            add_equation(alloc, given.of(*variable), right, given, next, basic)
        }
        (Term::App(_, _), Term::Var(variable)) => {
            add_equation(alloc, given.of(*variable), left, given, next, basic)
        }
        (Term::App(_, _), Term::App(_, _)) => {
            let middle = add_equation(alloc, next, left, given, behind(next)?, basic)?;
            let after = add_equation(alloc, next, right, given, middle, basic)?;
            Ok(after)
        }
    }
}
