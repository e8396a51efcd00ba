//! The store: atoms in scopes.
ghost use Rattle.std.specs.Prelude.{◌≡◌, ◌<◌, [], ◌∷◌, ◌++◌, length, IfOk, OnOk, OnErr};
ghost use Rattle.flat_form.specs.Numbering.{AtomOver, BasicOver};
ghost use Rattle.flat_form.specs.Solved.{IsSolved};

use crate::solving::{appended, extra_of, gather, is_solvable, keep, says_more, solved};
use crate::{Asserted, Scope};
use flat_form::{Basic, Flat};
use lists::Copied;
use std::alloc::Global;
use std::marker::Model;
use tree_model::NoMemory;

/// Atoms in scopes, of which the lowest is always open. Their variables are numbered from the lowest scope on.
#[derive(Drop)]
pub struct Store {
    alloc: Global,
    count: usize,
    scopes: Vec<Scope>,
}

impl Model for Store {
    ghost use Rattle.basic_solver.specs.Stores.{Stored, IsStore};

    ghost Value = { Stored };

    ghost view = { λ s. record { scopes = s.scopes.items } };

    ghost invariant = { λ s. IsStore s.count s.scopes.items };
}

impl Store {
    ghost use Rattle.basic_solver.specs.Stores.{open_in, below, IsAnswer, IsFormOf, MeansAll, IsExtraOf, MeansTop, IsEmptyWhereImplied};

    /// One scope with so many variables and no atoms.
    pub fn new(alloc: Global, variables: usize) -> Result<Store, NoMemory>
        ensures { IfOk result (λ store. store.scopes ≡ record { variables = variables; atoms = [] } ∷ []) }
    {
        let mut scopes = Vec::new(alloc);
        let atoms = Basic::new(alloc);
        if scopes.push(Scope { variables, atoms }).is_err() {
            return Err(NoMemory);
        }
        Ok(Store {
            alloc,
            count: variables,
            scopes,
        })
    }

    /// Opens a scope with so many variables, which have the next numbers.
    pub fn push(&mut self, variables: usize) -> Result<(), NoMemory>
        ensures ok { OnOk result (self.new.scopes ≡ self.old.scopes ++ record { variables = variables; atoms = [] } ∷ []) }
        ensures err { OnErr result (self.new ≡ self.old) }
    {
        let Some(count) = self.count.checked_add(variables) else {
            return Err(NoMemory);
        };
        let atoms = Basic::new(self.alloc);
        match self.scopes.push(Scope { variables, atoms }) {
            Ok(()) => {
                self.count = count;
                Ok(())
            }
            Err(_) => Err(NoMemory),
        }
    }

    /// Gives up the top scope. It takes no memory.
    pub fn pop(&mut self)
        requires { 1 < length self.old.scopes }
        ensures { self.new.scopes ≡ below self.old.scopes }
    {
        if let Some(scope) = self.scopes.pop() {
            self.count -= scope.variables;
        }
    }

    /// Puts the atom last into the top scope, unless the atoms have no solution with it. It was added, unless the atoms
    /// before imply it.
    pub fn assert(&mut self, atom: &Flat) -> Result<Asserted, NoMemory>
        requires { AtomOver (open_in self.old.scopes) atom.now }
        ensures answer { IfOk result (IsAnswer self.old.scopes self.new.scopes atom.now) }
        ensures err { OnErr result (self.new ≡ self.old) }
    {
        let alloc = self.alloc;
        let atoms = gather(alloc, self.scopes.as_slice(), self.scopes.len())?;
        let all = appended(alloc, &atoms, atom)?;
        if !is_solvable(alloc, self.count, &all)? {
            return Ok(Asserted::Clash);
        }
        let added = says_more(alloc, self.count, &atoms, atom)?;
        let copy = atom.copy(alloc)?;
        keep(&mut self.scopes, copy)?;
        Ok(Asserted::Kept { added })
    }

    /// The solved form of all atoms. It has their solutions, and over any symbols the shape of a solved form.
    pub fn basic(&self, alloc: Global) -> Result<Basic, NoMemory>
        ensures shape { IfOk result IsSolved }
        ensures over { IfOk result (BasicOver (open_in self.now.scopes)) }
        ensures form { IfOk result (IsFormOf self.now.scopes) }
        ensures means { IfOk result (MeansAll self.now.scopes) }
    {
        let atoms = gather(alloc, self.scopes.as_slice(), self.scopes.len())?;
        solved(alloc, self.count, &atoms)
    }

    /// What the top scope adds to the solved form of the atoms of the scopes below it. It is empty exactly where these
    /// imply the top scope.
    pub fn extra(&self, alloc: Global) -> Result<Basic, NoMemory>
        requires { 1 < length self.now.scopes }
        ensures over { IfOk result (BasicOver (open_in self.now.scopes)) }
        ensures extra { IfOk result (IsExtraOf self.now.scopes) }
        ensures means { IfOk result (MeansTop self.now.scopes) }
        ensures empty { IfOk result (IsEmptyWhereImplied self.now.scopes) }
    {
        let top = self.scopes.len() - 1;
        let lower = gather(alloc, self.scopes.as_slice(), top)?;
        extra_of(alloc, self.count, &lower, &self.scopes[top].atoms)
    }
}
