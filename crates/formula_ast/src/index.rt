//! The indexes of the further symbols of a formula.
ghost use Rattle.std.specs.Prelude.{◌≡◌, [], ◌∷◌, ◌++◌, flat_map, IfOk, OnOk};
ghost use Rattle.formula_ast.specs.Collecting.{Collects};
ghost use Rattle.formula_ast.specs.Forms.{form_of};
ghost use Rattle.formula_ast.specs.Occurrences.{index_of, indexes_in, first_occurrences, index_occurrences};
ghost use Rattle.formula_ast.specs.Terms.{list_of};

use crate::{Formula, Term, Terms};
use std::alloc::Global;
use tree_model::{NoMemory, Symbol};

// Adds the index of a further symbol, unless it was met.
fn of_symbol(symbol: Symbol, met: &mut Vec<u64>) -> Result<(), NoMemory>
    ensures { OnOk result (Collects met.old.items met.new.items (index_of symbol)) }
{
    let Symbol::Further(k) = symbol else {
        return Ok(());
    };
    if met.contains(&k) {
        return Ok(());
    }
    met.push(k)?;
    Ok(())
}

// Adds the indexes of a term.
#[cycle(index)]
fn of_term(t: &Term, met: &mut Vec<u64>) -> Result<(), NoMemory>
    ensures { OnOk result (Collects met.old.items met.new.items (indexes_in t.now)) }
{
    match t {
        Term::Var(_) => Ok(()),
        Term::App(symbol, ts) => {
            of_symbol(*symbol, met)?;
            of_terms(ts, met)
        }
    }
}

// Adds the indexes of terms, one after another.
#[cycle(index)]
fn of_terms(ts: &Terms, met: &mut Vec<u64>) -> Result<(), NoMemory>
    ensures { OnOk result (Collects met.old.items met.new.items (flat_map indexes_in (list_of ts.now))) }
{
    for t in ts.as_slice() {
        of_term(t, met)?;
    }
    Ok(())
}

// Adds the indexes of two terms.
fn of_pair(t: &Term, s: &Term, met: &mut Vec<u64>) -> Result<(), NoMemory>
    ensures { OnOk result (Collects met.old.items met.new.items (indexes_in t.now ++ indexes_in s.now)) }
{
    of_term(t, met)?;
    of_term(s, met)
}

// Adds the indexes of a formula.
fn of_formula(f: &Formula, met: &mut Vec<u64>) -> Result<(), NoMemory>
    ensures { OnOk result (Collects met.old.items met.new.items (index_occurrences (form_of f.now))) }
{
    match f {
        Formula::True | Formula::False => Ok(()),
        Formula::Eq(t, s) | Formula::Differ(t, s) => of_pair(t, s, met),
        Formula::Finite(t) | Formula::Win(_, _, t) => of_term(t, met),
        Formula::Call(_, ts) => of_terms(ts, met),
        Formula::Not(f) | Formula::Exists(_, f) | Formula::Forall(_, f) => of_formula(f.get(), met),
        Formula::And(f, g) | Formula::Or(f, g) | Formula::Imp(f, g) | Formula::Iff(f, g) => {
            of_formula(f.get(), met)?;
            of_formula(g.get(), met)
        }
    }
}

/// The index k of each further symbol `$k` of a formula, each once, by first occurrence from left to right. The work
/// grows with the size of the formula times the number of its indexes.
pub fn indexes(alloc: Global, f: &Formula) -> Result<Vec<u64>, NoMemory>
    ensures { IfOk result (λ indexes. indexes.items ≡ first_occurrences (index_occurrences (form_of f.now))) }
{
    let mut met = Vec::new(alloc);
    of_formula(f, &mut met)?;
    Ok(met)
}
