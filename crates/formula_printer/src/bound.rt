//! The names of bound variables.
ghost use Rattle.std.specs.Prelude.{◌≡◌, ◌++◌, ◌+◌, take, string_bytes, IfOk, OnOk};
ghost use Rattle.formula_grammar.specs.Checks as checks;
ghost use Rattle.formula_printer.specs.Bound as spec;
ghost use Rattle.formula_printer.specs.Bound.{fresh_names};

use crate::words::{write_number, write_text};
use formula_ast::{Name, Names};
use lists::{Copied, NoMemory};
use std::alloc::Global;

// `V` and a number.
fn counted(alloc: Global, k: usize) -> Result<String, NoMemory>
    ensures { IfOk result (λ name. string_bytes name ≡ spec.counted k) }
{
    let mut name = String::new(alloc);
    write_text("V", &mut name)?;
    write_number(k as u64, &mut name)?;
    Ok(name)
}

// Whether the name is one of these.
fn is_among(name: &str, names: &Names) -> bool
    ensures { result ≡ checks.is_among name.now names.now }
{
    for other in names.as_slice() {
        if other.as_str() == name {
            return true;
        }
    }
    false
}

// Adds `V` and a number to the names that are found, unless there are enough or it is one of the other names.
fn add_counted(
    alloc: Global,
    names: &Names,
    n: usize,
    k: usize,
    found: &mut Names,
) -> Result<(), NoMemory>
    requires { found.old ≡ take n (fresh_names names.now k) }
    ensures { OnOk result (found.new ≡ take n (fresh_names names.now (k + 1))) }
{
    if found.len() >= n {
        return Ok(());
    }
    let name = counted(alloc, k)?;
    if is_among(name.as_str(), names) {
        return Ok(());
    }
    found.push(Name::new(name))
}

/// Names for n bound variables: the first n of `V0`, `V1`, and so on that are none of these names.
pub fn bound_names(alloc: Global, names: &Names, n: usize) -> Result<Names, NoMemory>
    ensures { IfOk result (λ found. found ≡ spec.bound_names names.now n) }
{
    let Some(enough) = n.checked_add(names.len()) else {
        return Err(NoMemory);
    };
    let mut found = Names::new(alloc);
    for k in 0..enough {
        add_counted(alloc, names, n, k, &mut found)?;
    }
    Ok(found)
}

// Adds copies of names.
fn add_copies(alloc: Global, names: &Names, found: &mut Names) -> Result<(), NoMemory>
    ensures { OnOk result (found.new ≡ found.old ++ names.now) }
{
    for name in names.as_slice() {
        found.push(name.copy(alloc)?)?;
    }
    Ok(())
}

// Names for n bound variables, and then these names.
pub(crate) fn all_names(alloc: Global, names: &Names, n: usize) -> Result<Names, NoMemory>
    ensures { IfOk result (λ all. all ≡ spec.bound_names names.now n ++ names.now) }
{
    let mut found = bound_names(alloc, names, n)?;
    add_copies(alloc, names, &mut found)?;
    Ok(found)
}
