ghost use Rattle.std.specs.Prelude.{◌≡◌, List, [], ◌∷◌, ◌++◌, ◌<◌, length, slice_index, IsOk, OnOk, OnErr};

use lists::{Copied, NoMemory};
use smallvec::SmallVec;
use std::alloc::Global;
use std::marker::Model;

/// The arguments of a symbol: variables. The first eight stand in the value itself.
#[derive(Debug, Drop)]
pub struct Args {
    items: SmallVec<usize, 8>,
}

impl Model for Args {
    ghost use Rattle.std.specs.Prelude.{List, ℕ, ◌≤◌};

    ghost Value = { List ℕ };

    ghost view = { λ a. a.items.items };

    ghost invariant = { λ a. 8 ≤ a.items.capacity };
}

impl Args {
    /// The empty list. It takes no memory.
    pub fn new(alloc: Global) -> Args
        ensures { result ≡ [] }
    {
        Args {
            items: SmallVec::new(alloc),
        }
    }

    /// The item stands last. The first eight items take no memory.
    pub fn push(&mut self, item: usize) -> Result<(), NoMemory>
        ensures ok { OnOk result (self.new ≡ self.old ++ item ∷ []) }
        ensures err { OnErr result (self.new ≡ self.old) }
        ensures first_eight { length self.old < 8 → IsOk result }
    {
        self.items.push(item)?;
        Ok(())
    }

    /// How many items there are. It takes no memory.
    pub fn len(&self) -> usize
        ensures { result ≡ length self.now }
    {
        self.items.len()
    }

    /// The item at this place. It takes no memory.
    pub fn get(&self, i: usize) -> &usize
        requires { i < length self.now }
        ensures { result.now ≡ slice_index self.now i }
    {
        &self.items.as_slice()[i]
    }

    /// The items. It takes no memory.
    pub fn as_slice(&self) -> &[usize]
        ensures { result.now ≡ self.now }
    {
        self.items.as_slice()
    }
}

impl Copied for Args {
    fn copy(&self, alloc: Global) -> Result<Args, NoMemory> {
        let mut copied = Args::new(alloc);
        for &item in self.as_slice() {
            copied.push(item)?;
        }
        Ok(copied)
    }
}
