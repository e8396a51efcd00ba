//! Whether two trees are one, by the pairs of places that are reached along one path.
ghost use Rattle.std.specs.Prelude.{◌≡◌, [], ◌∷◌, ◌<◌, length, slice_index_or, All, IsTrue, ◌↔◌, IfOk, OnOk};
ghost use Rattle.std.specs.List.{zip};
ghost use Rattle.tree_model.specs.Comparing.{Adds, IsEmptyTable};
ghost use Rattle.tree_model.specs.Trees.{Same};

use crate::{NoMemory, Places, Tree};
use std::alloc::Global;
use std::marker::Model;

// Pairs of places of two trees, in the order in which they were met, each once, and for each pair whether it was met.
#[derive(Drop)]
struct Pairs {
    items: Vec<(usize, usize)>,
    met: Vec<bool>,
    height: usize,
    width: usize,
}

impl Model for Pairs {
    ghost use Rattle.tree_model.specs.Comparing.{Table, IsTable, unmarked};

    ghost Value = { Table };

    ghost view = { λ p. record { pairs = p.items.items; left = unmarked p.met.items; height = p.height; width = p.width } };

    ghost invariant = { λ p. IsTable p.items.items p.met.items p.height p.width };
}

impl Pairs {
    // No pairs, of places below these numbers.
    fn new(alloc: Global, height: usize, width: usize) -> Result<Pairs, NoMemory>
        ensures { IfOk result (λ pairs. IsEmptyTable height width pairs) }
    {
        let Some(size) = width.checked_mul(height) else {
            return Err(NoMemory);
        };
        Ok(Pairs {
            items: Vec::new(alloc),
            met: vec![in alloc; false; size]?,
            height,
            width,
        })
    }

    // How many pairs there are.
    fn len(&self) -> usize
        ensures { result ≡ length self.now.pairs }
    {
        self.items.len()
    }

    // The pair at this place.
    fn get(&self, i: usize) -> (usize, usize)
        requires { i < length self.now.pairs }
        ensures pair { result ≡ slice_index_or self.now.pairs i result }
        ensures left { result.0 < self.now.height }
        ensures right { result.1 < self.now.width }
    {
        self.items[i]
    }

    // The pair stands last, unless it was met.
    fn add(&mut self, left: usize, right: usize) -> Result<(), NoMemory>
        requires left { left < self.old.height }
        requires right { right < self.old.width }
        ensures { OnOk result (Adds self.old self.new ((left, right) ∷ [])) }
    {
        let place = left * self.width + right;
        if self.met[place] {
            return Ok(());
        }
        self.items.push((left, right))?;
        self.met[place] = true;
        Ok(())
    }

    // The pairs of children of equal numbers stand last, but for those that were met.
    fn add_all(&mut self, lefts: &Places, rights: &Places) -> Result<(), NoMemory>
        requires equal { length lefts.now ≡ length rights.now }
        requires left { All (λ child. child < self.old.height) lefts.now }
        requires right { All (λ child. child < self.old.width) rights.now }
        ensures { OnOk result (Adds self.old self.new (zip lefts.now rights.now)) }
    {
        for (i, &left) in lefts.as_slice().iter().enumerate() {
            self.add(left, *rights.get(i))?;
        }
        Ok(())
    }
}

/// Whether both are one tree: whether they read alike at every path. Each pair of places that one path reaches is
/// looked at once, so the work and the memory grow with the product of both numbers of nodes.
pub fn same(alloc: Global, a: &Tree, b: &Tree) -> Result<bool, NoMemory>
    ensures { IfOk result (λ answer. IsTrue answer ↔ Same a.now b.now) }
{
    let lefts = a.nodes();
    let rights = b.nodes();
    let mut pairs = Pairs::new(alloc, lefts.len(), rights.len())?;
    pairs.add(a.root(), b.root())?;
    let mut i = 0;
    while i < pairs.len() {
        let (x, y) = pairs.get(i);
        let left = &lefts[x];
        let right = &rights[y];
        if left.symbol != right.symbol || left.children.len() != right.children.len() {
            return Ok(false);
        }
        pairs.add_all(&left.children, &right.children)?;
        i += 1;
    }
    Ok(true)
}
