//! The store: atoms in scopes, over one graph.
ghost use Rattle.std.specs.Prelude.{◌≡◌, ◌<◌, [], ◌∷◌, ◌++◌, length, IfOk, OnOk, OnErr};
ghost use Rattle.flat_form.specs.Added.{IsSolvedForm};
ghost use Rattle.basic_solver.specs.Stores.{atoms_of, below, open_in};
ghost use Rattle.graph_store.specs.Levels.{AreLevels};

use crate::floor::Floor;
use crate::growing::grow;
use crate::reading::read_off;
use basic_solver::Scope;
use flat_form::Basic;
use lists::NoMemory;
use std::alloc::Global;
use std::marker::Model;
use term_graph::Graph;

/// Atoms in scopes, of which the lowest is always open. Their variables are numbered from the lowest scope on.
#[derive(Drop)]
pub struct Store {
    alloc: Global,
    graph: Graph,
    owners: Vec<usize>,
    floors: Vec<Floor>,
    scopes: Vec<Scope>,
}

impl Model for Store {
    ghost use Rattle.basic_solver.specs.Stores.{Stored};
    ghost use Rattle.graph_store.specs.Levels.{AreLevels};

    ghost Value = { Stored };

    ghost view = { λ s. record { scopes = s.scopes.items } };

    ghost invariant = { λ s. AreLevels s.graph s.owners.items s.scopes.items s.floors.items };
}

impl Store {
    /// One scope with so many variables and no atoms.
    pub fn new(alloc: Global, variables: usize) -> Result<Store, NoMemory>
        ensures { IfOk result (λ store. store.scopes ≡ record { variables = variables; atoms = [] } ∷ []) }
    {
        let mut graph = Graph::new(alloc);
        grow(&mut graph, variables)?;
        let mut scopes = Vec::new(alloc);
        scopes.push(Scope {
            variables,
            atoms: Basic::new(alloc),
        })?;
        Ok(Store {
            alloc,
            graph,
            owners: Vec::new(alloc),
            floors: Vec::new(alloc),
            scopes,
        })
    }

    /// Opens a scope with so many variables, which have the next numbers.
    pub fn push(&mut self, variables: usize) -> Result<(), NoMemory>
        ensures ok { OnOk result (self.new.scopes ≡ self.old.scopes ++ record { variables = variables; atoms = [] } ∷ []) }
        ensures err { OnErr result (self.new ≡ self.old) }
    {
        let floor = Floor {
            mark: self.graph.mark(),
            owners: self.owners.len(),
        };
        let atoms = Basic::new(self.alloc);
        let Ok(()) = grow(&mut self.graph, variables) else {
            self.graph.undo_to(floor.mark);
            return Err(NoMemory);
        };
        let Ok(()) = self.floors.push(floor) else {
            self.graph.undo_to(floor.mark);
            return Err(NoMemory);
        };
        let Ok(()) = self.scopes.push(Scope { variables, atoms }) else {
            self.floors.pop();
            self.graph.undo_to(floor.mark);
            return Err(NoMemory);
        };
        Ok(())
    }

    /// How many variables are open. It takes no memory.
    pub fn variables(&self) -> usize
        ensures { result ≡ open_in self.now.scopes }
    {
        self.graph.variables()
    }

    /// The solved form of all atoms.
    pub fn basic(&self, alloc: Global) -> Result<Basic, NoMemory>
        ensures { IfOk result (IsSolvedForm (atoms_of self.now.scopes)) }
    {
        self.graph.well_formed();
        let form = read_off(alloc, &self.graph)?;
        Ok(form)
    }

    /// Gives up the top scope. It takes no memory.
    pub fn pop(&mut self)
        requires { 1 < length self.old.scopes }
        ensures { self.new.scopes ≡ below self.old.scopes }
    {
        if let Some(floor) = self.floors.pop() {
            self.scopes.pop();
            self.graph.undo_to(floor.mark);
            self.owners.truncate(floor.owners);
        }
    }
}
