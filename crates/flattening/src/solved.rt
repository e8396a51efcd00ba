ghost use Rattle.std.specs.Prelude.{◌≡◌, List, [], ◌∷◌, ◌++◌, ◌↔◌, Some, OnOk, OnErr, Contains};
ghost use Rattle.std.specs.Option.{option_copied};
ghost use Rattle.flat_form.specs.declared.cube.Cube.{Cube};
ghost use Rattle.flattening.specs.Tables.{same_key, entry_at, HasKey};

use flat_form::Cubes;
use std::alloc::Global;
use std::marker::Model;
use tree_model::NoMemory;

/// What an entry of a table solves.
#[derive(Clone, Copy, Debug, PartialEq, Eq, Drop)]
pub enum Key {
    /// The predicate at this place of the signature.
    Call(usize),
    /// To win within so many moves, where the predicate at this place says which moves there are.
    Win(usize, u64),
}

impl Key {
    // Whether both are one key.
    fn is(&self, other: &Key) -> bool
        ensures { result ≡ same_key self.now other.now }
    {
        match (self, other) {
            (Key::Call(p), Key::Call(q)) => p == q,
            (Key::Win(p, k), Key::Win(q, j)) => p == q && k == j,
            _ => false,
        }
    }
}

/// A table: a list of keys with their cubes. No key stands in it twice.
#[derive(Debug, Drop)]
pub struct Solved {
    entries: Vec<(Key, Cubes)>,
}

impl Model for Solved {
    ghost use Rattle.std.specs.Prelude.{List};
    ghost use Rattle.flat_form.specs.declared.cube.Cube.{Cube};
    ghost use Rattle.flattening.specs.declared.solved.Key.{Key};

    ghost Value = { List (Key × List Cube) };

    ghost view = { λ s. s.entries.items };

    ghost use Rattle.flattening.specs.Tables.{HasDistinctKeys};

    ghost invariant = { λ s. HasDistinctKeys s.entries.items };
}

impl Solved {
    /// The empty table. It takes no memory.
    pub fn new(alloc: Global) -> Solved
        ensures { result ≡ [] }
    {
        Solved {
            entries: Vec::new(alloc),
        }
    }

    /// The key stands last, with its cubes.
    pub fn add(&mut self, key: Key, cubes: Cubes) -> Result<(), NoMemory>
        requires { ¬ HasKey self.old key }
        ensures ok { OnOk result (self.new ≡ self.old ++ (key, cubes) ∷ []) }
        ensures err { OnErr result (self.new ≡ self.old) }
    {
        self.entries.push((key, cubes))?;
        Ok(())
    }

    /// The cubes of a key. It takes no memory.
    pub fn find(&self, key: &Key) -> Option<&Cubes>
        ensures stands { (cubes : List Cube) → (option_copied result ≡ Some cubes) ↔ Contains self.now (key.now, cubes) }
        ensures first { option_copied result ≡ entry_at self.now key.now }
    {
        for entry in self.entries.as_slice() {
            if key.is(&entry.0) {
                return Some(&entry.1);
            }
        }
        None
    }
}
