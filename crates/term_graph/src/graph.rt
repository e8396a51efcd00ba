//! The graph: its contents now, and the moments of its trail.
ghost use Rattle.std.specs.Prelude.{All, ℕ, map, ◌≡◌, ◌≢◌, ◌<◌, ◌≤◌, None, [], ◌∷◌, ◌++◌, ◌+◌, length, IfOk, OnOk, OnErr, slice_index_or, false};

use crate::Bound;
use crate::change::Change;
use crate::parts::{self, Parts, binding_at, root_of};
use crate::past::{Past, tell};
use crate::uses::{Uses, uses_of};
use flat_form::Args;
use index_lists::Rings;
use indexmap::IndexMap;
use lists::NoMemory;
use std::alloc::Global;
use std::marker::Model;
use tree_model::{Places, Symbol};

/// A length of the trail.
#[derive(Clone, Copy)]
pub struct Mark {
    pub length: usize,
}

/// Variables, terms and cells of mentions, by index. Bindings of variables to variables have no cycle.
#[derive(Drop)]
pub struct Graph {
    alloc: Global,
    parts: Parts,
    trail: Vec<Change>,
}

impl Model for Graph {
    ghost use Rattle.std.specs.Prelude.{reverse};
    ghost use Rattle.term_graph.specs.Contents.{History};

    ghost Value = { History };

    ghost use Rattle.term_graph.specs.Fields.{fields, history};
    ghost use Rattle.term_graph.specs.Good.{AreGood};

    ghost view = { λ g. history (reverse g.trail.items) (fields g.parts) };

    ghost invariant = { λ g. AreGood (reverse g.trail.items) (fields g.parts) };
}

impl Graph {
    ghost use Rattle.term_graph.specs.Contents.{empty, grown, with_variable, marked, back_to, IsGrown, root, binding_of, Leads, IsInterned, IsLeader, term_at, with_binding, root_then, MayBind, target_of, uses_at, AreUsers, IsLeast, IsWeight, IsWellFormed};
    ghost use Rattle.term_graph.specs.Contents.Step.{Grew, BoundAt};
    ghost use Rattle.term_graph.specs.Contents.{contents_at};
    ghost use Rattle.term_graph.specs.Told.{Tells};

    /// No variable and no term. It takes no memory.
    pub fn new(alloc: Global) -> Graph
        ensures { result ≡ empty }
    {
        Graph {
            alloc,
            parts: Parts {
                slots: Vec::new(alloc),
                classes: Vec::new(alloc),
                terms: Vec::new(alloc),
                cells: Vec::new(alloc),
                rings: Rings::new(alloc),
                table: IndexMap::new(alloc),
                lowered: Vec::new(alloc),
            },
            trail: Vec::new(alloc),
        }
    }

    /// The next number is a variable, free and without a mark.
    pub fn add_variable(&mut self) -> Result<usize, NoMemory>
        ensures number { IfOk result (λ v. v ≡ length self.old.contents.bindings) }
        ensures ok { OnOk result (self.new ≡ grown Grew (with_variable self.old.contents) self.old) }
        ensures err { OnErr result (self.new ≡ self.old) }
    {
        parts::add(&mut self.parts, &mut self.trail)
    }

    /// Marks the variable, unless it is marked.
    pub fn mark_finite(&mut self, v: usize) -> Result<(), NoMemory>
        requires { v < length self.old.contents.bindings }
        ensures ok { OnOk result (self.new ≡ marked v self.old) }
        ensures err { OnErr result (self.new ≡ self.old) }
    {
        if self.parts.slots[v].finite {
            return Ok(());
        }
        parts::mark(&mut self.parts, &mut self.trail, v)
    }

    /// The term with this symbol and the roots of these arguments: the least there is, else a new one.
    pub fn intern_term(&mut self, symbol: Symbol, args: &[usize]) -> Result<usize, NoMemory>
        requires within { All (λ x. x < length self.old.contents.bindings) args.now }
        requires few { length args.now ≤ 8 }
        ensures ok { IfOk result (IsInterned self.old self.new symbol (map (root self.old.contents.bindings) args.now)) }
        ensures err { OnErr result (self.new ≡ self.old) }
    {
        parts::share(self.alloc, &mut self.parts, &mut self.trail, symbol, args)
    }

    /// The least term with this symbol and the roots of these arguments.
    pub fn find(&self, symbol: Symbol, args: &[usize]) -> Result<Option<usize>, NoMemory>
        requires within { All (λ x. x < length self.now.contents.bindings) args.now }
        ensures { IfOk result (IsLeader self.now.contents.bindings self.now.contents.terms symbol (map (root self.now.contents.bindings) args.now)) }
    {
        parts::shared(self.alloc, &self.parts, symbol, args)
    }

    /// Binds a root: to a variable with another root, which joins their uses, or to its first term.
    pub fn bind(&mut self, v: usize, to: Bound) -> Result<(), NoMemory>
        requires within { v < length self.old.contents.bindings }
        requires root { target_of self.old.contents.bindings v ≡ None }
        requires to { MayBind self.old.contents v to }
        ensures ok { OnOk result (self.new ≡ grown (BoundAt v) (with_binding v to self.old.contents) self.old) }
        ensures roots { OnOk result ((u : ℕ) → root self.new.contents.bindings u ≡ root_then self.old.contents.bindings v to (root self.old.contents.bindings u)) }
        ensures err { OnErr result (self.new ≡ self.old) }
    {
        self.well_formed();
        match to {
            Bound::Free => unreachable!(),
            Bound::Variable(x) => self.bind_variable(v, x),
            Bound::Term(t) => self.bind_term(v, t),
        }
    }

    fn bind_variable(&mut self, v: usize, to: usize) -> Result<(), NoMemory>
        requires v_in { v < length self.old.contents.bindings }
        requires open { target_of self.old.contents.bindings v ≡ None }
        requires to_in { to < length self.old.contents.bindings }
        requires apart { root self.old.contents.bindings to ≢ v }
        ensures ok { OnOk result (self.new ≡ grown (BoundAt v) (with_binding v (Bound.Variable to) self.old.contents) self.old) }
        ensures err { OnErr result (self.new ≡ self.old) }
    {
        let root = self.deref(to);
        parts::join(self.alloc, &mut self.parts, &mut self.trail, v, to, root)
    }

    fn bind_term(&mut self, v: usize, t: usize) -> Result<(), NoMemory>
        requires v_in { v < length self.old.contents.bindings }
        requires free { binding_of self.old.contents.bindings v ≡ Bound.Free }
        requires t_in { t < length self.old.contents.terms }
        ensures ok { OnOk result (self.new ≡ grown (BoundAt v) (with_binding v (Bound.Term t) self.old.contents) self.old) }
        ensures err { OnErr result (self.new ≡ self.old) }
    {
        parts::bind_term(&mut self.parts, &mut self.trail, v, t)
    }

    /// The last variable along the bindings. It takes no memory.
    pub fn deref(&self, v: usize) -> usize
        requires { v < length self.now.contents.bindings }
        ensures within { result < length self.now.contents.bindings }
        ensures root { result ≡ root self.now.contents.bindings v }
        ensures leads { Leads self.now.contents.bindings v result }
    {
        root_of(&self.parts.slots, v)
    }

    /// The terms that mention a variable with the root of v, each once.
    pub fn users(&self, alloc: Global, v: usize) -> Result<Places, NoMemory>
        requires { v < length self.now.contents.bindings }
        ensures { IfOk result (AreUsers self.now.contents.bindings self.now.contents.terms (root self.now.contents.bindings v)) }
    {
        let root = self.deref(v);
        parts::users(alloc, &self.parts, root)
    }

    /// The terms that mention a variable with the root of v, once per mention. It takes no memory.
    pub fn uses(&self, v: usize) -> Uses<'_>
        requires { v < length self.now.contents.bindings }
        ensures { result ≡ uses_at self.now.contents v }
    {
        let root = self.deref(v);
        uses_of(&self.parts, root)
    }

    /// The least variable with the root of v. It takes no memory.
    pub fn least(&self, v: usize) -> usize
        requires { v < length self.now.contents.bindings }
        ensures within { result < length self.now.contents.bindings }
        ensures least { IsLeast self.now.contents v result }
    {
        let root = self.deref(v);
        self.parts.classes[root].least
    }

    /// How many variables have the root of v, and how many mentions there are of these, together. It takes no memory.
    pub fn weight(&self, v: usize) -> usize
        requires { v < length self.now.contents.bindings }
        ensures { IsWeight self.now.contents v result }
    {
        let root = self.deref(v);
        self.parts.classes[root].weight
    }

    /// How many variables there are. It takes no memory.
    pub fn variables(&self) -> usize
        ensures { result ≡ length self.now.contents.bindings }
    {
        self.parts.slots.len()
    }

    /// How many terms there are. It takes no memory.
    pub fn terms(&self) -> usize
        ensures { result ≡ length self.now.contents.terms }
    {
        self.parts.terms.len()
    }

    /// The numbers in it are of variables and terms that there are. It takes no memory.
    pub fn well_formed(&self)
        ensures { IsWellFormed self.now.contents }
    {
        let _variables = self.parts.slots.len();
    }

    /// What the variable is bound to. It takes no memory.
    pub fn binding(&self, v: usize) -> Bound
        requires { v < length self.now.contents.bindings }
        ensures { result ≡ binding_of self.now.contents.bindings v }
    {
        binding_at(&self.parts.slots, v)
    }

    /// Whether the variable is marked. It takes no memory.
    pub fn finite(&self, v: usize) -> bool
        requires { v < length self.now.contents.bindings }
        ensures { result ≡ slice_index_or self.now.contents.marks v false }
    {
        self.parts.slots[v].finite
    }

    /// The symbol of the term. It takes no memory.
    pub fn symbol(&self, t: usize) -> &Symbol
        requires { t < length self.now.contents.terms }
        ensures { result.now ≡ (term_at self.now.contents.terms t).symbol }
    {
        &self.parts.terms[t].symbol
    }

    /// The arguments of the term. It takes no memory.
    pub fn args(&self, t: usize) -> &Args
        requires { t < length self.now.contents.terms }
        ensures { result.now ≡ (term_at self.now.contents.terms t).args }
    {
        &self.parts.terms[t].args
    }

    /// What the call did that made this moment of the trail. It takes no memory.
    pub fn step(&self, moment: usize) -> Past
        requires { moment < length self.now.trail }
        ensures { Tells result (contents_at self.now.trail self.now.contents moment) (contents_at self.now.trail self.now.contents (moment + 1)) }
    {
        tell(self.trail[moment])
    }

    /// The length of the trail. It takes no memory.
    pub fn mark(&self) -> Mark
        ensures { result.length ≡ length self.now.trail }
    {
        Mark {
            length: self.trail.len(),
        }
    }

    /// Takes back all that was done since the mark. It takes no memory.
    pub fn undo_to(&mut self, m: Mark)
        requires { m.length ≤ length self.old.trail }
        ensures { self.new ≡ back_to m.length self.old }
    {
        'back: while self.mark().length > m.length {
            self.undo_last();
        }
    }

    fn undo_last(&mut self)
        requires { 0 < length self.old.trail }
        ensures { IsGrown self.new self.old }
    {
        if let Some(change) = self.trail.pop() {
            parts::take_back(&mut self.parts, change);
        }
    }
}
