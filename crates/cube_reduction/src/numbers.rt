//! New numbers of variables by their places in an order, and atoms and parts with them.
ghost use Rattle.std.specs.Prelude.{◌≡◌, ◌<◌, ◌≤◌, ◌++◌, ℕ, map, length, IfOk, OnOk, IsTrue, All};
ghost use Rattle.flat_form.specs.Orders.{new_number};
ghost use Rattle.flat_form.specs.Parts.{renumbered};
ghost use Rattle.lists.specs.Distinct.{IsDistinct};
ghost use Rattle.cube_reduction.specs.Numbers.{number_in, moved_into};

use crate::over::copy_onto;
use flat_form::{Args, Basic, Flat, Part, Parts};
use lists::{Copied, List, NoMemory};
use numbering::numbers_of;
use std::alloc::Global;

// New numbers: by the table, and behind all others from its length on.
#[derive(Debug, Drop)]
pub(crate) struct Numbers {
    behind: usize,
    table: Vec<usize>,
}

impl Numbers {
    // The variables below free keep their numbers, those of the order come next, and then those from scope on.
    pub(crate) fn new(
        alloc: Global,
        free: usize,
        scope: usize,
        order: &[usize],
    ) -> Result<Numbers, NoMemory>
        requires low { free ≤ scope }
        requires distinct { IsDistinct order.now }
        requires within { All (λ v. (free ≤ v) × (v < scope)) order.now }
        ensures { IfOk result (λ numbers. number_in numbers.table.items numbers.behind ≡ new_number free scope order.now) }
    {
        let Some(behind) = free.checked_add(order.len()) else {
            return Err(NoMemory);
        };
        let table = numbers_of(alloc, free, scope, order)?;
        Ok(Numbers { behind, table })
    }

    // The number of the variable.
    fn of(&self, v: usize) -> Result<usize, NoMemory>
        ensures { IfOk result (λ w. w ≡ number_in self.now.table.items self.now.behind v) }
    {
        if v < self.table.len() {
            return Ok(self.table[v]);
        }
        match self.behind.checked_add(v - self.table.len()) {
            Some(w) => Ok(w),
            None => Err(NoMemory),
        }
    }

    // The numbers of the arguments.
    fn of_args(&self, alloc: Global, xs: &[usize]) -> Result<Args, NoMemory>
        ensures { IfOk result (λ ys. ys ≡ map (number_in self.now.table.items self.now.behind) xs.now) }
    {
        let mut ys = Args::new(alloc);
        for &x in xs {
            ys.push(self.of(x)?)?;
        }
        Ok(ys)
    }

    // The numbers of the variables.
    pub(crate) fn of_all(&self, alloc: Global, xs: &[usize]) -> Result<List<usize>, NoMemory>
        ensures { IfOk result (λ ys. ys ≡ map (number_in self.now.table.items self.now.behind) xs.now) }
    {
        let mut ys = List::new(alloc);
        for &x in xs {
            ys.push(self.of(x)?)?;
        }
        Ok(ys)
    }

    // The atom with new numbers.
    fn of_atom(&self, alloc: Global, atom: &Flat) -> Result<Flat, NoMemory>
        ensures { IfOk result (λ new. new ≡ renumbered (number_in self.now.table.items self.now.behind) atom.now) }
    {
        match atom {
            Flat::VarVar(u, v) => Ok(Flat::VarVar(self.of(*u)?, self.of(*v)?)),
            Flat::VarTerm(u, symbol, xs) => {
                let left = self.of(*u)?;
                let ys = self.of_args(alloc, xs.as_slice())?;
                Ok(Flat::VarTerm(left, *symbol, ys))
            }
            Flat::Finite(u) => Ok(Flat::Finite(self.of(*u)?)),
        }
    }

    // Puts the atoms behind the others, with new numbers.
    fn push_all(&self, alloc: Global, list: &mut Basic, atoms: &[Flat]) -> Result<(), NoMemory>
        ensures { OnOk result (list.new ≡ list.old ++ map (renumbered (number_in self.now.table.items self.now.behind)) atoms.now) }
    {
        for atom in atoms {
            list.push(self.of_atom(alloc, atom)?)?;
        }
        Ok(())
    }

    // The part with new numbers, with these atoms before its own, and with so many inner variables more.
    fn of_part(
        &self,
        alloc: Global,
        more: usize,
        moved: &Basic,
        part: &Part,
    ) -> Result<Part, NoMemory>
        ensures { IfOk result (λ new. new ≡ moved_into (number_in self.now.table.items self.now.behind) more moved.now part.now) }
    {
        let Some(inner) = more.checked_add(part.inner) else {
            return Err(NoMemory);
        };
        let Some(length) = moved.len().checked_add(part.basic.len()) else {
            return Err(NoMemory);
        };
        let mut basic = Basic::with_capacity(alloc, length)?;
        copy_onto(alloc, &mut basic, moved.as_slice())?;
        self.push_all(alloc, &mut basic, part.basic.as_slice())?;
        Ok(Part { inner, basic })
    }

    // Whether each variable keeps its number.
    pub(crate) fn keep_all(&self) -> bool
        ensures { IsTrue result → (v : ℕ) → number_in self.now.table.items self.now.behind v ≡ v }
    {
        if self.behind != self.table.len() {
            return false;
        }
        for v in 0..self.table.len() {
            if self.table[v] != v {
                return false;
            }
        }
        true
    }

    // So for each of the parts, which stay as they are where nothing changes.
    pub(crate) fn of_parts(
        &self,
        alloc: Global,
        more: usize,
        moved: &Basic,
        parts: Parts,
    ) -> Result<Parts, NoMemory>
        ensures { IfOk result (λ new. new ≡ map (moved_into (number_in self.now.table.items self.now.behind) more moved.now) parts) }
    {
        if more == 0 && moved.len() == 0 && self.keep_all() {
            return Ok(parts);
        }
        let mut new = Parts::with_capacity(alloc, parts.len())?;
        for part in parts.as_slice() {
            new.push(self.of_part(alloc, more, moved, part)?)?;
        }
        Ok(new)
    }
}
