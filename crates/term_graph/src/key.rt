//! Keys of the sharing table.
ghost use Rattle.std.specs.Prelude.{◌≡◌, ◌++◌, [], ◌∷◌, None, OnOk, OnErr};
ghost use Rattle.std.specs.Map.{lookup};
ghost use Rattle.std.specs.Prelude.{ℕ, ◌<◌, length};
ghost use Rattle.std.specs.List.{AllByRecursion};
ghost use Rattle.term_graph.specs.Keys.{sign_of, is_key_of};
ghost use Rattle.term_graph.specs.Lowering.{IsKept};
ghost use Rattle.term_graph.specs.Noting.{IsNoted, IsLowered, AreKeysBelow};

use indexmap::IndexMap;
use lists::NoMemory;
use smallvec::SmallVec;
use tree_model::Symbol;

/// A symbol, as a part of a key.
#[derive(Clone, Copy, PartialEq, Eq, Hash, Drop)]
pub enum Sign {
    Named(usize),
    Further(u64),
}

/// A symbol with roots.
#[derive(PartialEq, Eq, Hash, Drop)]
pub struct Key {
    pub sign: Sign,
    pub args: SmallVec<usize, 8>,
}

/// What a key had as its value before: its place in the table, and the term.
#[derive(Clone, Copy)]
pub struct Lowered {
    pub place: usize,
    pub leader: usize,
}

pub fn sign_key(symbol: Symbol) -> Sign
    ensures { result ≡ sign_of symbol }
{
    match symbol {
        Symbol::Named(place) => Sign::Named(place),
        Symbol::Further(index) => Sign::Further(index),
    }
}

/// What stands under the key.
pub fn find_key(table: &IndexMap<Key, usize>, key: &Key) -> Option<usize>
    ensures { result ≡ lookup (is_key_of key.now.sign key.now.args.items) table.now.entries }
{
    table.get(key).copied()
}

/// A key that is not there goes last.
pub fn add_key(table: &mut IndexMap<Key, usize>, key: Key, term: usize) -> Result<(), NoMemory>
    requires { lookup (is_key_of key.sign key.args.items) table.old.entries ≡ None }
    ensures ok { OnOk result (table.new.entries ≡ table.old.entries ++ (key, term) ∷ []) }
    ensures err { OnErr result (table.new.entries ≡ table.old.entries) }
{
    let Ok(_) = table.insert(key, term) else {
        return Err(NoMemory);
    };
    Ok(())
}

// Writes t at the place, where it is below what stands there.
fn lower(
    table: &mut IndexMap<Key, usize>,
    lowered: &mut Vec<Lowered>,
    place: usize,
    t: usize,
) -> Result<(), NoMemory>
    requires { place < length table.old.entries }
    ensures kept { IsKept table.old.entries lowered.old.items table.new.entries lowered.new.items }
    ensures lowered { OnOk result (IsLowered table.old.entries table.new.entries place t) }
    ensures keys { (n : ℕ) → AreKeysBelow n table.old.entries → AreKeysBelow n table.new.entries }
{
    let leader = table[place];
    if leader <= t {
        return Ok(());
    }
    let Ok(()) = lowered.push(Lowered { place, leader }) else {
        return Err(NoMemory);
    };
    table[place] = t;
    Ok(())
}

/// Notes the term under its key: a key that is absent goes last, and a lower term takes the place of a greater one.
pub fn note(
    table: &mut IndexMap<Key, usize>,
    lowered: &mut Vec<Lowered>,
    key: Key,
    t: usize,
) -> Result<(), NoMemory>
    ensures kept { IsKept table.old.entries lowered.old.items table.new.entries lowered.new.items }
    ensures noted { OnOk result (IsNoted table.old.entries table.new.entries key t) }
    ensures keys { (n : ℕ) → AllByRecursion (λ x. x < n) key.args.items → AreKeysBelow n table.old.entries → AreKeysBelow n table.new.entries }
{
    match table.get_index_of(&key) {
        Some(place) => lower(table, lowered, place, t),
        None => add_key(table, key, t),
    }
}
