use crate::{Formula, Names};
use lists::{Copied, List, NoMemory};
use std::alloc::Global;

/// A predicate: its place in the signature, how many of the names, from the front, are its parameters, the names of
/// its parameters and then of the other variables of its body by first occurrence, and its body.
#[derive(Debug, Drop)]
pub struct Pred {
    pub place: usize,
    pub params: usize,
    pub names: Names,
    pub body: Formula,
}

impl Copied for Pred {
    fn copy(&self, alloc: Global) -> Result<Pred, NoMemory> {
        Ok(Pred {
            place: self.place,
            params: self.params,
            names: self.names.copy(alloc)?,
            body: self.body.copy(alloc)?,
        })
    }
}

/// A list of predicates.
pub type Preds = List<Pred>;
