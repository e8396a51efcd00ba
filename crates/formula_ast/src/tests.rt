use super::*;
use crate::formula::boxed;
use lists::Copied;
use signature::{Kind, Signature};
use sqlite_items::Boxed;
use std::alloc::Global;
use std::test::*;
use tree_model::{NoMemory, Symbol};

// A list of the variables with these numbers.
fn variables(alloc: Global, numbers: &[usize]) -> Result<Terms, NoMemory> {
    let mut terms = Terms::new(alloc);
    for &number in numbers {
        terms.push(Term::Var(number))?;
    }
    Ok(terms)
}

// The symbol at place 1 applied to the variables with these numbers.
fn applied(alloc: Global, numbers: &[usize]) -> Result<Term, NoMemory> {
    Ok(Term::App(Symbol::Named(1), variables(alloc, numbers)?))
}

// The formula that says that the variable with this number is finite.
fn finite(number: usize) -> Formula {
    Formula::Finite(Term::Var(number))
}

// How many formulas `form` makes.
const FORMS: usize = 14;

// A formula of each form.
fn form(alloc: Global, number: usize) -> Result<Formula, NoMemory> {
    match number {
        0 => Ok(Formula::True),
        1 => Ok(Formula::False),
        2 => Ok(Formula::Eq(Term::Var(0), applied(alloc, &[1, 2])?)),
        3 => Ok(Formula::Differ(Term::Var(3), applied(alloc, &[])?)),
        4 => Ok(Formula::Finite(applied(alloc, &[4])?)),
        5 => Ok(Formula::Call(5, variables(alloc, &[6, 7])?)),
        6 => Ok(Formula::Win(8, 9, Term::Var(10))),
        7 => Ok(Formula::Not(boxed(alloc, finite(11))?)),
        8 => Ok(Formula::Exists(12, boxed(alloc, finite(13))?)),
        9 => Ok(Formula::Forall(14, boxed(alloc, finite(15))?)),
        _ => two_parts(alloc, number),
    }
}

// The formula that joins two by one of the four marks.
fn two_parts(alloc: Global, number: usize) -> Result<Formula, NoMemory> {
    let left = boxed(alloc, finite(16))?;
    let right = boxed(alloc, finite(17))?;
    Ok(match number {
        10 => Formula::And(left, right),
        11 => Formula::Or(left, right),
        12 => Formula::Imp(left, right),
        _ => Formula::Iff(left, right),
    })
}

// What `Debug` writes of a formula.
fn text_of(alloc: Global, formula: &Formula) -> Result<String, NoMemory> {
    Ok(format!(in alloc; "{formula:?}")?)
}

// What `Debug` writes of a formula of each form.
fn text_of_form(alloc: Global, number: usize) -> Result<String, NoMemory> {
    let formula = form(alloc, number)?;
    text_of(alloc, &formula)
}

fn copied_form(alloc: Global, number: usize) -> Result<Formula, NoMemory> {
    let formula = form(alloc, number)?;
    formula.copy(alloc)
}

// What `Debug` writes of its copy.
fn text_of_copy(alloc: Global, number: usize) -> Result<String, NoMemory> {
    let copy = copied_form(alloc, number)?;
    text_of(alloc, &copy)
}

#[test]
fn a_formula_of_each_form_is_copied(rt: HostRuntime) -> Result<(), Fail> {
    for number in 0..FORMS {
        let text = text_of_form(rt.alloc(), number)?;
        let copied = text_of_copy(rt.alloc(), number)?;
        assert_eq!(rt; copied.as_str(), text.as_str());
    }
    Ok(())
}

fn named(alloc: Global, text: &str) -> Result<Name, NoMemory> {
    Ok(Name::new(String::from_str(alloc, text)?))
}

// The names `X` and `Y`.
fn two_names(alloc: Global) -> Result<Names, NoMemory> {
    let mut names = Names::new(alloc);
    names.push(named(alloc, "X")?)?;
    names.push(named(alloc, "Y")?)?;
    Ok(names)
}

fn copied_names(alloc: Global) -> Result<Names, NoMemory> {
    let names = two_names(alloc)?;
    names.copy(alloc)
}

// The names, each with a blank behind it.
fn text_of_names(alloc: Global, names: &Names) -> Result<String, NoMemory> {
    let mut text = String::new(alloc);
    for name in names.as_slice() {
        text.push_str(name.as_str())?;
        text.push_str(" ")?;
    }
    Ok(text)
}

fn text_of_copied_names(alloc: Global) -> Result<String, NoMemory> {
    let copy = copied_names(alloc)?;
    text_of_names(alloc, &copy)
}

#[test]
fn a_list_of_names_is_copied(rt: HostRuntime) -> Result<(), Fail> {
    let text = text_of_copied_names(rt.alloc())?;
    assert_eq!(rt; text.as_str(), "X Y ");
    Ok(())
}

// A variable and an application.
fn two_terms(alloc: Global) -> Result<Terms, NoMemory> {
    let mut terms = variables(alloc, &[3])?;
    terms.push(applied(alloc, &[7])?)?;
    Ok(terms)
}

fn are_two_terms(terms: &Terms) -> bool {
    terms.len() == 2
        && matches!(terms.get(0), Term::Var(3))
        && matches!(terms.get(1), Term::App(Symbol::Named(1), xs) if xs.len() == 1)
}

fn copied_terms(alloc: Global) -> Result<Terms, NoMemory> {
    let terms = two_terms(alloc)?;
    terms.copy(alloc)
}

fn terms_are_copied(alloc: Global) -> Result<bool, NoMemory> {
    let copy = copied_terms(alloc)?;
    Ok(are_two_terms(&copy))
}

#[test]
fn a_list_of_terms_grows_and_is_copied(rt: HostRuntime) -> Result<(), Fail> {
    assert!(rt; terms_are_copied(rt.alloc())?);
    Ok(())
}

// A truth behind so many negations.
fn negations(alloc: Global, count: usize) -> Result<Formula, NoMemory> {
    let mut formula = Formula::True;
    for _ in 0..count {
        formula = Formula::Not(boxed(alloc, formula)?);
    }
    Ok(formula)
}

// A truth behind so many quantifiers.
fn quantifiers(alloc: Global, count: usize) -> Result<Formula, NoMemory> {
    let mut formula = Formula::True;
    for x in 0..count {
        formula = Formula::Exists(x, boxed(alloc, formula)?);
    }
    Ok(formula)
}

// Deeper than any formula that a text within the limits gives. The checked build of `rt try` has too little stack for it.
fn deep_copy(alloc: Global) -> Result<Formula, NoMemory> {
    let formula = negations(alloc, 2500)?;
    formula.copy(alloc)
}

fn is_copied_deep(alloc: Global) -> Result<bool, NoMemory> {
    let copy = deep_copy(alloc)?;
    Ok(matches!(copy, Formula::Not(_)))
}

#[test]
fn a_deep_formula_is_copied(rt: HostRuntime) -> Result<(), Fail> {
    assert!(rt; is_copied_deep(rt.alloc())?);
    Ok(())
}

// Whether these are the free variables of the formula, in this order.
fn is_free_in(alloc: Global, formula: &Formula, wanted: &[usize]) -> Result<bool, NoMemory> {
    let found = free_variables(alloc, formula)?;
    Ok(found.as_slice() == wanted)
}

// Whether these are the indexes of its further symbols, in this order.
fn is_index_in(alloc: Global, formula: &Formula, wanted: &[u64]) -> Result<bool, NoMemory> {
    let found = indexes(alloc, formula)?;
    Ok(found.as_slice() == wanted)
}

// The formula that says that there is a Y with X = f(Y), where X is 1 and Y is 0.
fn has_argument(alloc: Global) -> Result<Formula, NoMemory> {
    let applied = Term::App(Symbol::Named(0), variables(alloc, &[0])?);
    let body = Formula::Eq(Term::Var(1), applied);
    Ok(Formula::Exists(0, boxed(alloc, body)?))
}

// The formula that all X are such that Y is finite, where X is 3 and Y is 4.
fn binds_another(alloc: Global) -> Result<Formula, NoMemory> {
    Ok(Formula::Forall(3, boxed(alloc, finite(4))?))
}

// A formula that is walked.
fn walked(alloc: Global, number: usize) -> Result<Formula, NoMemory> {
    match number {
        0 => quantifiers(alloc, 2500),
        1 => has_argument(alloc),
        2 => binds_another(alloc),
        3 => bound_and_free(alloc),
        _ => three_indexes(alloc),
    }
}

fn has_free(alloc: Global, number: usize, wanted: &[usize]) -> Result<bool, NoMemory> {
    let formula = walked(alloc, number)?;
    is_free_in(alloc, &formula, wanted)
}

fn has_indexes(alloc: Global, number: usize, wanted: &[u64]) -> Result<bool, NoMemory> {
    let formula = walked(alloc, number)?;
    is_index_in(alloc, &formula, wanted)
}

#[test]
fn a_deep_formula_is_walked(rt: HostRuntime) -> Result<(), Fail> {
    assert!(rt; has_free(rt.alloc(), 0, &[])?);
    assert!(rt; has_indexes(rt.alloc(), 0, &[])?);
    Ok(())
}

#[test]
fn a_variable_that_is_bound_is_not_free(rt: HostRuntime) -> Result<(), Fail> {
    assert!(rt; has_free(rt.alloc(), 1, &[1])?);
    assert!(rt; has_free(rt.alloc(), 2, &[4])?);
    Ok(())
}

fn some_finite(alloc: Global) -> Result<Boxed<Formula>, NoMemory> {
    let body = boxed(alloc, finite(5))?;
    boxed(alloc, Formula::Exists(5, body))
}

fn called(alloc: Global) -> Result<Boxed<Formula>, NoMemory> {
    let arguments = variables(alloc, &[7, 5, 7])?;
    boxed(alloc, Formula::Call(0, arguments))
}

// A variable that is bound in the first part is free in the second.
fn bound_and_free(alloc: Global) -> Result<Formula, NoMemory> {
    let left = some_finite(alloc)?;
    let right = called(alloc)?;
    Ok(Formula::And(left, right))
}

#[test]
fn free_variables_stand_once_by_first_occurrence(rt: HostRuntime) -> Result<(), Fail> {
    assert!(rt; has_free(rt.alloc(), 3, &[7, 5])?);
    Ok(())
}

// The further symbols 2, at a variable, and 9.
fn two_further(alloc: Global) -> Result<Terms, NoMemory> {
    let mut terms = Terms::new(alloc);
    terms.push(Term::App(Symbol::Further(2), variables(alloc, &[0])?))?;
    terms.push(further(alloc, 9))?;
    Ok(terms)
}

// A further symbol as a constant.
fn further(alloc: Global, index: u64) -> Term {
    Term::App(Symbol::Further(index), Terms::new(alloc))
}

// The formula that denies that $9($2(X), $9) differs from $5.
fn three_indexes(alloc: Global) -> Result<Formula, NoMemory> {
    let left = Term::App(Symbol::Further(9), two_further(alloc)?);
    let differ = Formula::Differ(left, further(alloc, 5));
    Ok(Formula::Not(boxed(alloc, differ)?))
}

#[test]
fn indexes_stand_once_by_first_occurrence(rt: HostRuntime) -> Result<(), Fail> {
    assert!(rt; has_indexes(rt.alloc(), 1, &[])?);
    assert!(rt; has_indexes(rt.alloc(), 4, &[9, 2, 5])?);
    Ok(())
}

fn statement(alloc: Global) -> Result<Statement, NoMemory> {
    Ok(Statement {
        names: two_names(alloc)?,
        body: finite(1),
    })
}

fn copied_statement(alloc: Global) -> Result<Statement, NoMemory> {
    let statement = statement(alloc)?;
    statement.copy(alloc)
}

// A list of one statement that is a copy.
fn one_statement(alloc: Global) -> Result<Statements, NoMemory> {
    let statement = copied_statement(alloc)?;
    let mut statements = Statements::new(alloc);
    statements.push(statement)?;
    Ok(statements)
}

fn copied_statements(alloc: Global) -> Result<Statements, NoMemory> {
    let statements = one_statement(alloc)?;
    statements.copy(alloc)
}

fn is_statement(statement: &Statement) -> bool {
    statement.names.len() == 2 && matches!(statement.body, Formula::Finite(Term::Var(1)))
}

fn statements_are_copied(alloc: Global) -> Result<bool, NoMemory> {
    let copy = copied_statements(alloc)?;
    Ok(copy.len() == 1 && is_statement(copy.get(0)))
}

#[test]
fn a_list_of_statements_grows_and_is_copied(rt: HostRuntime) -> Result<(), Fail> {
    assert!(rt; statements_are_copied(rt.alloc())?);
    Ok(())
}

fn pred(alloc: Global) -> Result<Pred, NoMemory> {
    Ok(Pred {
        place: 4,
        params: 1,
        names: two_names(alloc)?,
        body: finite(0),
    })
}

fn copied_pred(alloc: Global) -> Result<Pred, NoMemory> {
    let pred = pred(alloc)?;
    pred.copy(alloc)
}

// A list of one predicate that is a copy.
fn one_pred(alloc: Global) -> Result<Preds, NoMemory> {
    let pred = copied_pred(alloc)?;
    let mut preds = Preds::new(alloc);
    preds.push(pred)?;
    Ok(preds)
}

fn copied_preds(alloc: Global) -> Result<Preds, NoMemory> {
    let preds = one_pred(alloc)?;
    preds.copy(alloc)
}

fn is_pred(pred: &Pred) -> bool {
    (pred.place, pred.params) == (4, 1)
        && pred.names.len() == 2
        && matches!(pred.body, Formula::Finite(Term::Var(0)))
}

fn preds_are_copied(alloc: Global) -> Result<bool, NoMemory> {
    let copy = copied_preds(alloc)?;
    Ok(copy.len() == 1 && is_pred(copy.get(0)))
}

#[test]
fn a_list_of_predicates_grows_and_is_copied(rt: HostRuntime) -> Result<(), Fail> {
    assert!(rt; preds_are_copied(rt.alloc())?);
    Ok(())
}

fn one_symbol(alloc: Global) -> Result<Signature, NoMemory> {
    let mut signature = Signature::new(alloc);
    match signature.declare("f", Kind::Symbol, 1) {
        Ok(0) => Ok(signature),
        _ => Err(NoMemory),
    }
}

fn text_of_file(alloc: Global) -> Result<String, NoMemory> {
    let file = File {
        signature: one_symbol(alloc)?,
        preds: Preds::new(alloc),
        solves: Statements::new(alloc),
    };
    Ok(format!(in alloc; "{file:?}")?)
}

#[test]
fn a_file_is_shown(rt: HostRuntime) -> Result<(), Fail> {
    let shown = text_of_file(rt.alloc())?;
    assert!(rt; shown.as_str().starts_with("File { signature: "));
    Ok(())
}

#[test]
fn laws_can_be_called(_rt: HostRuntime) {
    meanings_are_stable();
    well_formed_is_stable();
}
