//! Names of classes: for each variable one of its class, the same for all of the class.
ghost use Rattle.std.specs.Prelude.{◌≡◌, ℕ, ◌<◌, List, length, cond, eqb, slice_index, slice_index_or, IfOk, IsTrue, ◌↔◌, MatchBool};
ghost use Rattle.flat_form.specs.declared.atom.Flat.{Flat};
ghost use Rattle.flat_form.specs.Classes.{Class};
ghost use Rattle.basic_solver.specs.Names.{name_in, rank, IsNaming, IsSound, weight, renamed, AreAlike};

use flat_form::Args;
use std::alloc::Global;
use tree_model::NoMemory;

// Each variable is its own name.
pub(crate) fn apart(alloc: Global, count: usize) -> Result<Vec<usize>, NoMemory>
    ensures { IfOk result (λ names. (length names.items ≡ count) × ((v : ℕ) → name_in names.items v ≡ v)) }
{
    let Ok(mut names) = Vec::with_capacity(alloc, count) else {
        return Err(NoMemory);
    };
    for v in 0..count {
        if names.push(v).is_err() {
            return Err(NoMemory);
        }
    }
    Ok(names)
}

// Whether u comes before v.
fn comes_before(leads: &[bool], u: usize, v: usize) -> bool
    requires left { u < length leads.now }
    requires right { v < length leads.now }
    ensures { IsTrue result ↔ rank leads.now u < rank leads.now v }
{
    if leads[u] == leads[v] {
        u < v
    } else {
        leads[u]
    }
}

// The name, or `low` in place of `high`.
fn new_name(name: usize, high: usize, low: usize) -> usize
    ensures { result ≡ cond (eqb name high) low name }
{
    if name == high { low } else { name }
}

// What is named `high` is now named `low`.
fn rename(names: &mut Vec<usize>, high: usize, low: usize)
    ensures { names.new.items ≡ renamed high low names.old.items }
{
    for i in 0..names.len() {
        names[i] = new_name(names[i], high, low);
    }
}

// Gives the classes of the two variables one name, and tells whether they had two.
pub(crate) fn join(leads: &[bool], names: &mut Vec<usize>, u: usize, v: usize) -> bool
    requires naming { IsNaming leads.now names.old.items }
    requires left { u < length leads.now }
    requires right { v < length leads.now }
    ensures naming { IsNaming leads.now names.new.items }
    ensures sound { (atoms : List Flat) → Class atoms u v → IsSound atoms names.old.items → IsSound atoms names.new.items }
    ensures told { MatchBool result (weight leads.now names.new.items < weight leads.now names.old.items)
        ((names.new.items ≡ names.old.items) × (name_in names.old.items u ≡ name_in names.old.items v)) }
{
    let left = names[u];
    let right = names[v];
    if left == right {
        return false;
    }
    if comes_before(leads, left, right) {
        rename(names, right, left);
        return true;
    }
    rename(names, left, right);
    true
}

// Does so for each two arguments, and tells whether some had two names.
pub(crate) fn join_all(leads: &[bool], names: &mut Vec<usize>, xs: &Args, ys: &Args) -> bool
    requires naming { IsNaming leads.now names.old.items }
    requires lengths { length xs.now ≡ length ys.now }
    requires left { (i : ℕ) → i < length xs.now → slice_index xs.now i < length leads.now }
    requires right { (i : ℕ) → i < length ys.now → slice_index ys.now i < length leads.now }
    ensures naming { IsNaming leads.now names.new.items }
    ensures sound { (atoms : List Flat) → ((i : ℕ) → i < length xs.now → Class atoms (slice_index xs.now i) (slice_index ys.now i))
        → IsSound atoms names.old.items → IsSound atoms names.new.items }
    ensures told { MatchBool result (weight leads.now names.new.items < weight leads.now names.old.items)
        ((names.new.items ≡ names.old.items) × AreAlike names.old.items xs.now ys.now) }
{
    let mut changed = false;
    for i in 0..xs.len() {
        if join(leads, names, *xs.get(i), *ys.get(i)) {
            changed = true;
        }
    }
    changed
}

// Whether the arguments have the same names, place by place.
pub(crate) fn are_alike(names: &[usize], xs: &Args, ys: &Args) -> bool
    requires lengths { length xs.now ≡ length ys.now }
    requires left { (i : ℕ) → i < length xs.now → slice_index xs.now i < length names.now }
    requires right { (i : ℕ) → i < length ys.now → slice_index ys.now i < length names.now }
    ensures { IsTrue result ↔ AreAlike names.now xs.now ys.now }
{
    for i in 0..xs.len() {
        if names[*xs.get(i)] != names[*ys.get(i)] {
            return false;
        }
    }
    true
}
