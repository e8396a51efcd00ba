use crate::{Formula, Names};
use lists::{Copied, List, NoMemory};
use std::alloc::Global;

/// A formula, with the names of its variables by first occurrence, those behind quantifiers included.
#[derive(Debug, Drop)]
pub struct Statement {
    pub names: Names,
    pub body: Formula,
}

impl Copied for Statement {
    fn copy(&self, alloc: Global) -> Result<Statement, NoMemory> {
        Ok(Statement {
            names: self.names.copy(alloc)?,
            body: self.body.copy(alloc)?,
        })
    }
}

/// A list of statements.
pub type Statements = List<Statement>;
