use crate::Args;
use lists::{Copied, List, NoMemory};
use std::alloc::Global;
use tree_model::Symbol;

/// A flat atom over numbered variables.
#[derive(Debug, Drop)]
pub enum Flat {
    /// The left variable equals the right one.
    VarVar(usize, usize),
    /// The variable equals the symbol applied to variables.
    VarTerm(usize, Symbol, Args),
    /// The variable is a finite tree.
    Finite(usize),
}

impl Copied for Flat {
    fn copy(&self, alloc: Global) -> Result<Flat, NoMemory> {
        match self {
            Flat::VarVar(u, v) => Ok(Flat::VarVar(*u, *v)),
            Flat::VarTerm(u, symbol, args) => Ok(Flat::VarTerm(*u, *symbol, args.copy(alloc)?)),
            Flat::Finite(u) => Ok(Flat::Finite(*u)),
        }
    }
}

/// A conjunction of flat atoms, in their order.
pub type Basic = List<Flat>;
