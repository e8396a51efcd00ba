//! Terms with one symbol whose arguments have the same names.
ghost use Rattle.std.specs.Prelude.{◌≡◌, ℕ, ◌<◌, List, length, map, IfOk, All};
ghost use Rattle.std.specs.HashMap.{get};
ghost use Rattle.flat_form.specs.Numbering.{AtomOver, BasicOver};
ghost use Rattle.basic_solver.specs.Names.{name_in};
ghost use Rattle.basic_solver.specs.Twins.{sign_of, is_same_key, IsKeyOf, IsPlaced, IsTwinned, AreTwins};

use flat_form::{Args, Basic, Flat};
use smallvec::SmallVec;
use std::alloc::Global;
use std::collections::HashMap;
use tree_model::{NoMemory, Symbol};

// A symbol, as a part of a key.
#[derive(Clone, Copy, Debug, PartialEq, Eq, Hash, Drop)]
enum Sign {
    Named(usize),
    Further(u64),
}

// A symbol applied to names. The first eight stand in the value itself.
#[derive(Debug, PartialEq, Eq, Hash, Drop)]
struct Application {
    sign: Sign,
    names: SmallVec<usize, 8>,
}

fn sign_key(symbol: Symbol) -> Sign
    ensures { result ≡ sign_of symbol }
{
    match symbol {
        Symbol::Named(place) => Sign::Named(place),
        Symbol::Further(index) => Sign::Further(index),
    }
}

// The names of the arguments.
fn names_of(alloc: Global, names: &[usize], xs: &Args) -> Result<SmallVec<usize, 8>, NoMemory>
    requires within { All (λ x. x < length names.now) xs.now }
    ensures { IfOk result (λ list. list.items ≡ map (name_in names.now) xs.now) }
{
    let mut list = SmallVec::new(alloc);
    for i in 0..xs.len() {
        if list.push(names[*xs.get(i)]).is_err() {
            return Err(NoMemory);
        }
    }
    Ok(list)
}

// The place of the key, which is i where it had none.
fn place(
    table: &mut HashMap<Application, usize>,
    key: Application,
    i: usize,
) -> Result<usize, NoMemory>
    ensures { IfOk result (λ j. IsPlaced (get is_same_key table.old) (get is_same_key table.new) key i j) }
{
    if let Some(j) = table.get(&key).copied() {
        return Ok(j);
    }
    let Ok(_) = table.insert(key, i) else {
        return Err(NoMemory);
    };
    Ok(i)
}

// The place of the first term with the atom's symbol and arguments, by name. It is i where there is none before.
fn twin(
    alloc: Global,
    table: &mut HashMap<Application, usize>,
    names: &[usize],
    atom: &Flat,
    i: usize,
) -> Result<usize, NoMemory>
    requires over { AtomOver (length names.now) atom.now }
    ensures { IfOk result (λ j. IsTwinned names.now (get is_same_key table.old) (get is_same_key table.new) atom.now i j) }
{
    match atom {
        Flat::VarVar(_, _) => Ok(i),
        Flat::VarTerm(_, symbol, xs) => {
            let sign = sign_key(*symbol);
            let names = names_of(alloc, names, xs)?;
            let j = place(table, Application { sign, names }, i)?;
            Ok(j)
        }
        Flat::Finite(_) => Ok(i),
    }
}

// For each atom, the place of the first term with its symbol and arguments, by name.
pub(crate) fn twins_of(
    alloc: Global,
    names: &[usize],
    atoms: &Basic,
) -> Result<Vec<usize>, NoMemory>
    requires over { BasicOver (length names.now) atoms.now }
    ensures { IfOk result (λ twins. AreTwins names.now atoms.now twins.items) }
{
    let Ok(mut table) = HashMap::with_capacity(alloc, atoms.len()) else {
        return Err(NoMemory);
    };
    let Ok(mut twins) = Vec::with_capacity(alloc, atoms.len()) else {
        return Err(NoMemory);
    };
    for i in 0..atoms.len() {
        let j = twin(alloc, &mut table, names, atoms.get(i), i)?;
        let Ok(()) = twins.push(j) else {
            return Err(NoMemory);
        };
    }
    Ok(twins)
}
