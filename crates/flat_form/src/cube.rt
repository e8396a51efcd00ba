use crate::Basic;
use lists::{Copied, List, NoMemory};
use std::alloc::Global;

/// A part of a cube: the next `inner` variables behind those of the cube are bound by it.
#[derive(Debug, Drop)]
pub struct Part {
    pub inner: usize,
    pub basic: Basic,
}

impl Copied for Part {
    fn copy(&self, alloc: Global) -> Result<Part, NoMemory> {
        Ok(Part {
            inner: self.inner,
            basic: self.basic.copy(alloc)?,
        })
    }
}

/// A list of parts.
pub type Parts = List<Part>;

/// Values of the variables below `free` for which there are values of the next `outer` variables that make the basic
/// hold and, for each part, no values of its inner variables that make the part's basic hold.
#[derive(Debug, Drop)]
pub struct Cube {
    pub free: usize,
    pub outer: usize,
    pub basic: Basic,
    pub parts: Parts,
}

impl Copied for Cube {
    fn copy(&self, alloc: Global) -> Result<Cube, NoMemory> {
        Ok(Cube {
            free: self.free,
            outer: self.outer,
            basic: self.basic.copy(alloc)?,
            parts: self.parts.copy(alloc)?,
        })
    }
}

/// A list of cubes: one of them holds.
pub type Cubes = List<Cube>;
