//! Signatures: lists of declared names, each with its kind and its number of arguments.
#![tactic(auto)]

ghost use Rattle.std.specs.Prelude.{◌≡◌, ℕ, [], ◌∷◌, ◌++◌, ◌<◌, ◌↔◌, length, Some, IsTrue, IfOk, OnOk, OnErr};
ghost use Rattle.signature.specs.Names.{StandsAt, HasDistinctNames, place_of};
ghost use Rattle.tree_model.specs.Signatures.{declared_at, IsRoot, Fits};

use indexmap::IndexMap;
use std::alloc::Global;
use std::marker::Model;
use thiserror::Error;
pub use tree_model::Kind;
use tree_model::{Node, Symbol};

/// Why a name is not declared.
#[derive(Clone, Copy, Debug, PartialEq, Eq, Drop, Error)]
pub enum DeclareError {
    /// The name stands at this place already.
    #[error("the name stands at place {0} already")]
    Twice(usize),
    /// Memory was wanting.
    #[error("memory was wanting")]
    NoMemory,
}

/// Declared names with their kinds and numbers of arguments, in order of declaration. No name stands twice.
#[derive(Debug, Drop)]
pub struct Signature {
    entries: IndexMap<String, (Kind, usize)>,
}

impl Model for Signature {
    ghost use Rattle.tree_model.specs.Signatures as tree;
    ghost use Rattle.signature.specs.Kept.{signature_of};

    ghost Value = { tree.Signature };

    ghost view = { λ s. signature_of s.entries.entries };
}

impl Signature {
    /// The empty signature. It takes no memory.
    pub fn new(alloc: Global) -> Signature
        ensures { result ≡ [] }
    {
        Signature {
            entries: IndexMap::new(alloc),
        }
    }

    /// Declares a name, as its bytes, after the others, and answers its place.
    pub fn declare(&mut self, name: &str, kind: Kind, arity: usize) -> Result<usize, DeclareError>
        ensures place { IfOk result (λ place. place ≡ length self.old) }
        ensures last { OnOk result (self.new ≡ self.old ++ record { name = name.now; kind = kind; arity = arity } ∷ []) }
        ensures twice { (place : ℕ) → (result ≡ Err (DeclareError.Twice place)) ↔ StandsAt self.old name.now place }
        ensures unchanged { OnErr result (self.new ≡ self.old) }
        ensures distinct { HasDistinctNames self.new }
    {
        if let Some(place) = self.find(name) {
            return Err(DeclareError::Twice(place));
        }
        let place = self.len();
        let alloc = *self.entries.allocator();
        let Ok(key) = String::from_str(alloc, name) else {
            return Err(DeclareError::NoMemory);
        };
        let Ok(_) = self.entries.insert(key, (kind, arity)) else {
            return Err(DeclareError::NoMemory);
        };
        Ok(place)
    }

    /// The place of a name. It takes no memory.
    pub fn find(&self, name: &str) -> Option<usize>
        ensures stands { (place : ℕ) → (result ≡ Some place) ↔ StandsAt self.now name.now place }
        ensures first { result ≡ place_of self.now name.now }
        ensures distinct { HasDistinctNames self.now }
    {
        self.entries.get_index_of(name)
    }

    /// How many names are declared. It takes no memory.
    pub fn len(&self) -> usize
        ensures len { result ≡ length self.now }
        ensures distinct { HasDistinctNames self.now }
    {
        self.entries.len()
    }

    /// The kind and the number of arguments of the name at this place. It takes no memory.
    pub fn entry(&self, place: usize) -> (Kind, usize)
        requires { place < length self.now }
        ensures { declared_at self.now place ≡ Some result }
    {
        self.entries[place]
    }

    /// The name at this place. It takes no memory.
    pub fn name(&self, place: usize) -> &str
        requires { place < length self.now }
        ensures { StandsAt self.now result.now place }
    {
        let (name, _) = self.entries.get_index(place).unwrap();
        name.as_str()
    }

    // Whether the symbol with this many arguments is a root symbol over the signature.
    fn is_root(&self, symbol: &Symbol, arguments: usize) -> bool
        ensures { IsTrue result ↔ IsRoot self.now symbol.now arguments }
    {
        match *symbol {
            Symbol::Named(place) => place < self.len()
                && self.entry(place) == (Kind::Symbol, arguments),
            Symbol::Further(_) => true,
        }
    }

    /// Whether each node has a symbol of this signature with its number of arguments, or a further symbol. It takes
    /// no memory.
    pub fn fits(&self, nodes: &[Node]) -> bool
        ensures { IsTrue result ↔ Fits self.now nodes.now }
    {
        for node in nodes {
            if !self.is_root(&node.symbol, node.children.len()) {
                return false;
            }
        }
        true
    }
}

#[cfg(test)]
mod tests;
