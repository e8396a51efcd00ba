//! Circular doubly linked lists of cells, threaded by index through one vector.
#![tactic(auto)]

ghost use Rattle.std.specs.Prelude.{◌≡◌, ◌≢◌, ℕ, ◌<◌, ◌+◌, ◌-◌, List, [], ◌∷◌, ◌++◌, Contains, length, slice_index, slice_set, IfOk, OnOk, OnErr};
ghost use Rattle.index_lists.specs.Rings.{exchanged, with_cell, without_last, IsRound};
ghost use Rattle.index_lists.specs.Links.{nexts, previouses, AreLinked};

use lists::NoMemory;
use std::alloc::Global;
use std::marker::Model;

/// The two cells of a `splice`, which alone makes one.
#[derive(Clone, Copy)]
pub struct Cut {
    a: usize,
    b: usize,
}

#[derive(Clone, Copy)]
struct Links {
    next: usize,
    previous: usize,
}

/// Cells in rings. Every cell stands in exactly one ring. A contract sees the list of the next cells.
#[derive(Drop)]
pub struct Rings {
    cells: Vec<Links>,
}

impl Model for Rings {
    ghost use Rattle.std.specs.Prelude.{List, ℕ};

    ghost Value = { List ℕ };

    ghost use Rattle.index_lists.specs.Links.{nexts, AreLinked};

    ghost view = { λ r. nexts r.cells.items };

    ghost invariant = { λ r. AreLinked r.cells.items };
}

impl Rings {
    /// No cell. It takes no memory.
    pub fn new(alloc: Global) -> Rings
        ensures { result ≡ [] }
    {
        Rings {
            cells: Vec::new(alloc),
        }
    }

    /// How many cells there are. It takes no memory.
    pub fn len(&self) -> usize
        ensures { result ≡ length self.now }
    {
        self.cells.len()
    }

    /// The next number is a cell alone in its ring.
    pub fn new_ring(&mut self) -> Result<usize, NoMemory>
        ensures cell { IfOk result (λ c. c ≡ length self.old) }
        ensures ok { OnOk result (self.new ≡ self.old ++ length self.old ∷ []) }
        ensures len { OnOk result (length self.new ≡ length self.old + 1) }
        ensures alone { IfOk result (λ c. IsRound self.new c []) }
        ensures others { (c : ℕ) (cells : List ℕ) → c < length self.old → IsRound self.old c cells → OnOk result (IsRound self.new c cells) }
        ensures err { OnErr result (self.new ≡ self.old) }
    {
        let cell = self.cells.len();
        self.cells.push(Links {
            next: cell,
            previous: cell,
        })?;
        Ok(cell)
    }

    /// The next number follows `after` in its ring.
    pub fn add_cell(&mut self, after: usize) -> Result<usize, NoMemory>
        requires { after < length self.old }
        ensures cell { IfOk result (λ c. c ≡ length self.old) }
        ensures ok { OnOk result (self.new ≡ with_cell after self.old) }
        ensures len { OnOk result (length self.new ≡ length self.old + 1) }
        ensures joined { (cells : List ℕ) → IsRound self.old after cells → OnOk result (IsRound self.new after (length self.old ∷ cells)) }
        ensures others { (c : ℕ) (cells : List ℕ) → c < length self.old → c ≢ after → ¬ Contains cells after → IsRound self.old c cells → OnOk result (IsRound self.new c cells) }
        ensures err { OnErr result (self.new ≡ self.old) }
    {
        self.rounds();
        let cell = self.new_ring()?;
        self.splice(after, cell);
        Ok(cell)
    }

    /// The next cells of the two are exchanged: two rings become one. It takes no memory.
    pub fn splice(&mut self, a: usize, b: usize) -> Cut
        requires a_in { a < length self.old }
        requires b_in { b < length self.old }
        ensures cut { result ≡ record { a = a; b = b } }
        ensures exchanged { self.new ≡ exchanged a b self.old }
        ensures len { length self.new ≡ length self.old }
        ensures joined { (A B : List ℕ) → a ≢ b → ¬ Contains A b → IsRound self.old a A → IsRound self.old b B → IsRound self.new a (B ++ b ∷ A) }
        ensures others { (c : ℕ) (cells : List ℕ) → c ≢ a → c ≢ b → ¬ Contains cells a → ¬ Contains cells b → IsRound self.old c cells → IsRound self.new c cells }
    {
        exchange(&mut self.cells, a, b);
        Cut { a, b }
    }

    /// The same again, which takes a splice back. It takes no memory.
    pub fn unsplice(&mut self, cut: Cut)
        requires a_in { cut.a < length self.old }
        requires b_in { cut.b < length self.old }
        ensures exchanged { self.new ≡ exchanged cut.a cut.b self.old }
        ensures parted { (A B : List ℕ) → IsRound self.old cut.a (B ++ cut.b ∷ A) → IsRound self.new cut.a A × IsRound self.new cut.b B }
        ensures others { (c : ℕ) (cells : List ℕ) → c ≢ cut.a → c ≢ cut.b → ¬ Contains cells cut.a → ¬ Contains cells cut.b → IsRound self.old c cells → IsRound self.new c cells }
    {
        exchange(&mut self.cells, cut.a, cut.b);
    }

    /// The greatest cell leaves its ring. It takes no memory.
    pub fn remove_last(&mut self)
        requires { 0 < length self.old }
        ensures left { self.new ≡ without_last self.old }
        ensures len { length self.new + 1 ≡ length self.old }
        ensures parted { (c : ℕ) (A B : List ℕ) → c < length self.new → IsRound self.old c (A ++ length self.new ∷ B) → IsRound self.new c (A ++ B) }
        ensures others { (c : ℕ) (cells : List ℕ) → c < length self.new → ¬ Contains cells (length self.new) → IsRound self.old c cells → IsRound self.new c cells }
    {
        let last = self.cells.len() - 1;
        let before = previous_of(&self.cells, last);
        exchange(&mut self.cells, before, last);
        self.cells.truncate(last);
    }

    /// The cell behind this one. It takes no memory.
    pub fn next(&self, c: usize) -> usize
        requires { c < length self.now }
        ensures { result ≡ slice_index self.now c }
    {
        next_of(&self.cells, c)
    }

    /// The cell before this one. It takes no memory.
    pub fn previous(&self, c: usize) -> usize
        requires { c < length self.now }
        ensures within { result < length self.now }
        ensures before { slice_index self.now result ≡ c }
    {
        previous_of(&self.cells, c)
    }

    /// Every cell stands in a ring. It takes no memory.
    pub fn rounds(&self)
        ensures inside { (c : ℕ) → c < length self.now → slice_index self.now c < length self.now }
        ensures each { (c : ℕ) → c < length self.now → (cells : List ℕ) × IsRound self.now c cells }
    {
        let _cells = self.cells.len();
    }
}

fn exchange(cells: &mut Vec<Links>, a: usize, b: usize)
    requires linked { AreLinked cells.old.items }
    requires a_in { a < length (nexts cells.old.items) }
    requires b_in { b < length (nexts cells.old.items) }
    ensures linked { AreLinked cells.new.items }
    ensures exchanged { nexts cells.new.items ≡ exchanged a b (nexts cells.old.items) }
    ensures len { length (nexts cells.new.items) ≡ length (nexts cells.old.items) }
{
    let behind_a = next_of(cells, a);
    let behind_b = next_of(cells, b);
    set_next(cells, a, behind_b);
    set_previous(cells, behind_b, a);
    set_next(cells, b, behind_a);
    set_previous(cells, behind_a, b);
}

fn next_of(cells: &Vec<Links>, at: usize) -> usize
    requires { at < length (nexts cells.now.items) }
    ensures { result ≡ slice_index (nexts cells.now.items) at }
{
    cells[at].next
}

fn previous_of(cells: &Vec<Links>, at: usize) -> usize
    requires { at < length (nexts cells.now.items) }
    ensures { result ≡ slice_index (previouses cells.now.items) at }
{
    cells[at].previous
}

fn set_next(cells: &mut Vec<Links>, at: usize, to: usize)
    requires { at < length (nexts cells.old.items) }
    ensures next { nexts cells.new.items ≡ slice_set (nexts cells.old.items) at to }
    ensures previous { previouses cells.new.items ≡ previouses cells.old.items }
{
    cells[at].next = to;
}

fn set_previous(cells: &mut Vec<Links>, at: usize, to: usize)
    requires { at < length (nexts cells.old.items) }
    ensures next { nexts cells.new.items ≡ nexts cells.old.items }
    ensures previous { previouses cells.new.items ≡ slice_set (previouses cells.old.items) at to }
{
    cells[at].previous = to;
}

ghost use Rattle.index_lists.specs.Rings.{ExchangesBack, TakesAway, HasOneRound};

/// Exchanging twice is nothing, taking away what was added is nothing, and a cell has one ring.
pub fn ring_laws()
    ensures back { ExchangesBack }
    ensures away { TakesAway }
    ensures one { HasOneRound }
{}

#[cfg(test)]
mod tests;
