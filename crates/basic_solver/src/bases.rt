//! What is noted of a base: which variables lead, which have an equation, and which classes are finite by it.
ghost use Rattle.std.specs.Prelude.{◌≡◌, ◌<◌, length, IfOk};
ghost use Rattle.flat_form.specs.Numbering.{AtomOver, BasicOver};
ghost use Rattle.basic_solver.specs.Flags.{AreNames};
ghost use Rattle.basic_solver.specs.Outcomes.{AreLeads, with_lead};
ghost use Rattle.basic_solver.specs.Bases.{with_bound, AreBound, with_said, AreSaid};

use flat_form::{Basic, Flat};
use std::alloc::Global;
use tree_model::NoMemory;

// Sets the flag of a variable with a term.
fn lead(leads: &mut Vec<bool>, atom: &Flat)
    requires { AtomOver (length leads.old.items) atom.now }
    ensures { leads.new.items ≡ with_lead atom.now leads.old.items }
{
    match atom {
        Flat::VarVar(_, _) => {}
        Flat::VarTerm(u, _, _) => {
            leads[*u] = true;
        }
        Flat::Finite(_) => {}
    }
}

// Which variables have a term in the base.
pub(crate) fn leads_of(alloc: Global, count: usize, base: &Basic) -> Result<Vec<bool>, NoMemory>
    requires over { BasicOver count base.now }
    ensures size { IfOk result (λ leads. length leads.items ≡ count) }
    ensures leads { IfOk result (λ leads. AreLeads base.now leads.items) }
{
    let Ok(mut leads) = vec![in alloc; false; count] else {
        return Err(NoMemory);
    };
    for i in 0..base.len() {
        lead(&mut leads, base.get(i));
    }
    Ok(leads)
}

// Sets the flag of a variable with an equation.
fn bind(bound: &mut Vec<bool>, atom: &Flat)
    requires { AtomOver (length bound.old.items) atom.now }
    ensures { bound.new.items ≡ with_bound atom.now bound.old.items }
{
    match atom {
        Flat::VarVar(u, _) => {
            bound[*u] = true;
        }
        Flat::VarTerm(u, _, _) => {
            bound[*u] = true;
        }
        Flat::Finite(_) => {}
    }
}

// Which variables are left of an equation of the base.
pub(crate) fn bound_by(alloc: Global, count: usize, base: &Basic) -> Result<Vec<bool>, NoMemory>
    requires over { BasicOver count base.now }
    ensures size { IfOk result (λ bound. length bound.items ≡ count) }
    ensures bound { IfOk result (λ bound. AreBound base.now bound.items) }
{
    let Ok(mut bound) = vec![in alloc; false; count] else {
        return Err(NoMemory);
    };
    for i in 0..base.len() {
        bind(&mut bound, base.get(i));
    }
    Ok(bound)
}

// Sets the flag of the class of a finite atom.
fn say(names: &[usize], said: &mut Vec<bool>, atom: &Flat)
    requires names { AreNames names.now }
    requires size { length said.old.items ≡ length names.now }
    requires over { AtomOver (length names.now) atom.now }
    ensures { said.new.items ≡ with_said names.now atom.now said.old.items }
{
    match atom {
        Flat::VarVar(_, _) => {}
        Flat::VarTerm(_, _, _) => {}
        Flat::Finite(u) => {
            let name = names[*u];
            said[name] = true;
        }
    }
}

// For each name, whether the base says of a variable of its class that it is finite.
pub(crate) fn said_by(alloc: Global, names: &[usize], base: &Basic) -> Result<Vec<bool>, NoMemory>
    requires names { AreNames names.now }
    requires over { BasicOver (length names.now) base.now }
    ensures size { IfOk result (λ said. length said.items ≡ length names.now) }
    ensures said { IfOk result (λ said. AreSaid names.now base.now said.items) }
{
    let Ok(mut said) = vec![in alloc; false; names.len()] else {
        return Err(NoMemory);
    };
    for i in 0..base.len() {
        say(names, &mut said, base.get(i));
    }
    Ok(said)
}
