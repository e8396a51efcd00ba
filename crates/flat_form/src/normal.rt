ghost use Rattle.std.specs.Prelude.{◌≡◌, List, [], ◌∷◌, ◌++◌, ◌<◌, length, slice_get, Some, IfOk, OnOk, OnErr};
ghost use Rattle.flat_form.specs.Normals.{list_of};

use crate::Basic;
use lists::{Copied, NoMemory};
use sqlite_items::Items;
use std::alloc::Global;

/// A negated conjunction. Over n variables it binds those from n to n + `bound`, and says that no values of these make
/// the basic and each of the parts hold. The parts are over n + `bound` variables.
#[derive(Debug, Drop)]
#[cycle(normal)]
pub struct Normal {
    pub bound: usize,
    pub basic: Basic,
    pub parts: Normals,
}

/// A list of negated conjunctions.
#[derive(Debug, Drop)]
#[cycle(normal)]
pub struct Normals {
    items: Items<Normal>,
}

impl Normal {
    /// An equal negated conjunction.
    #[cycle(copy)]
    pub fn copy(&self, alloc: Global) -> Result<Normal, NoMemory>
        ensures { IfOk result (λ copy. copy ≡ self.now) }
    {
        Ok(Normal {
            bound: self.bound,
            basic: self.basic.copy(alloc)?,
            parts: self.parts.copy(alloc)?,
        })
    }
}

impl Normals {
    /// The empty list. It takes no memory.
    pub fn new(alloc: Global) -> Normals
        ensures { list_of result ≡ [] }
    {
        Normals {
            items: Items::new(alloc),
        }
    }

    /// The item stands last.
    pub fn push(&mut self, item: Normal) -> Result<(), NoMemory>
        ensures ok { OnOk result (list_of self.new ≡ list_of self.old ++ item ∷ []) }
        ensures err { OnErr result (list_of self.new ≡ list_of self.old) }
    {
        self.items.push(item)?;
        Ok(())
    }

    /// How many items there are. It takes no memory.
    pub fn len(&self) -> usize
        ensures { result ≡ length (list_of self.now) }
    {
        self.items.len()
    }

    /// The item at this place. It takes no memory.
    pub fn get(&self, i: usize) -> &Normal
        requires { i < length (list_of self.now) }
        ensures { slice_get (list_of self.now) i ≡ Some result.now }
    {
        &self.items.as_slice()[i]
    }

    /// An equal list.
    #[cycle(copy)]
    pub fn copy(&self, alloc: Global) -> Result<Normals, NoMemory>
        ensures { IfOk result (λ copy. copy ≡ self.now) }
    {
        let mut items = Items::new(alloc);
        for item in self.items.as_slice() {
            items.push(item.copy(alloc)?)?;
        }
        Ok(Normals { items })
    }
}
