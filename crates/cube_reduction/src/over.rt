//! A solved conjunction, and what further atoms add to it. Nothing else here solves.
ghost use Rattle.std.specs.Prelude.{◌≡◌, ◌+◌, ◌++◌, [], IfOk, OnOk};
ghost use Rattle.flat_form.specs.Numbering.{BasicOver};
ghost use Rattle.flat_form.specs.Solved.{IsDirect};
ghost use Rattle.basic_solver.specs.Outcomes.{IsOutcome};

use basic_solver::added;
use flat_form::Basic;
use lists::{Copied, List, NoMemory};
use std::alloc::Global;

// A solved conjunction over so many variables.
#[derive(Debug, Drop)]
pub(crate) struct Over {
    pub(crate) count: usize,
    pub(crate) base: Basic,
}

// Puts copies of the items behind the others.
pub(crate) fn copy_onto<T: Copied + Drop>(
    alloc: Global,
    list: &mut List<T>,
    more: &[T],
) -> Result<(), NoMemory>
    ensures { OnOk result (list.new ≡ list.old ++ more.now) }
{
    for item in more {
        list.push(item.copy(alloc)?)?;
    }
    Ok(())
}

// The solved form of the atoms, over so many variables. None where they have no solution.
pub(crate) fn solved(alloc: Global, count: usize, atoms: &Basic) -> Result<Option<Basic>, NoMemory>
    requires over { BasicOver count atoms.now }
    ensures { IfOk result (IsOutcome [] atoms.now) }
{
    added(alloc, count, &Basic::new(alloc), atoms)
}

impl Over {
    // What the atoms, with so many further variables, add to the base. None where they have no solution beside it.
    pub(crate) fn added(
        &self,
        alloc: Global,
        inner: usize,
        atoms: &Basic,
    ) -> Result<Option<Basic>, NoMemory>
        requires direct { IsDirect self.now.base }
        requires base { BasicOver self.now.count self.now.base }
        requires over { BasicOver (self.now.count + inner) atoms.now }
        ensures { IfOk result (IsOutcome self.now.base (self.now.base ++ atoms.now)) }
    {
        let Some(count) = self.count.checked_add(inner) else {
            return Err(NoMemory);
        };
        let Some(length) = self.base.len().checked_add(atoms.len()) else {
            return Err(NoMemory);
        };
        let mut all = Basic::with_capacity(alloc, length)?;
        copy_onto(alloc, &mut all, self.base.as_slice())?;
        copy_onto(alloc, &mut all, atoms.as_slice())?;
        added(alloc, count, &self.base, &all)
    }
}
