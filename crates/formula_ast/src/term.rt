ghost use Rattle.std.specs.Prelude.{◌≡◌, List, [], ◌∷◌, ◌++◌, ◌<◌, length, slice_get, Some, IfOk, OnOk, OnErr};
ghost use Rattle.formula_ast.specs.Terms.{list_of};

use sqlite_items::Items;
use std::alloc::Global;
use tree_model::{NoMemory, Symbol};

/// A term. A variable is a position in a list of names.
#[derive(Debug, Drop)]
#[cycle(term)]
pub enum Term {
    Var(usize),
    /// A symbol applied to its arguments, of which there may be none.
    App(Symbol, Terms),
}

/// A list of terms.
#[derive(Debug, Drop)]
#[cycle(term)]
pub struct Terms {
    items: Items<Term>,
}

impl Term {
    /// An equal term.
    #[cycle(copy)]
    pub fn copy(&self, alloc: Global) -> Result<Term, NoMemory>
        ensures { IfOk result (λ copy. copy ≡ self.now) }
    {
        match self {
            Term::Var(v) => Ok(Term::Var(*v)),
            Term::App(symbol, terms) => Ok(Term::App(*symbol, terms.copy(alloc)?)),
        }
    }
}

impl Terms {
    /// The empty list. It takes no memory.
    pub fn new(alloc: Global) -> Terms
        ensures { list_of result ≡ [] }
    {
        Terms {
            items: Items::new(alloc),
        }
    }

    /// The item stands last.
    pub fn push(&mut self, item: Term) -> Result<(), NoMemory>
        ensures ok { OnOk result (list_of self.new ≡ list_of self.old ++ item ∷ []) }
        ensures err { OnErr result (list_of self.new ≡ list_of self.old) }
    {
        self.items.push(item)?;
        Ok(())
    }

    /// How many items there are. It takes no memory.
    pub fn len(&self) -> usize
        ensures { result ≡ length (list_of self.now) }
    {
        self.items.len()
    }

    /// The item at this place. It takes no memory.
    pub fn get(&self, i: usize) -> &Term
        requires { i < length (list_of self.now) }
        ensures { slice_get (list_of self.now) i ≡ Some result.now }
    {
        &self.items.as_slice()[i]
    }

    /// The items. It takes no memory.
    pub fn as_slice(&self) -> &[Term]
        ensures { result.now ≡ list_of self.now }
    {
        self.items.as_slice()
    }

    /// An equal list.
    #[cycle(copy)]
    pub fn copy(&self, alloc: Global) -> Result<Terms, NoMemory>
        ensures { IfOk result (λ copy. copy ≡ self.now) }
    {
        let mut items = Items::new(alloc);
        for item in self.items.as_slice() {
            items.push(item.copy(alloc)?)?;
        }
        Ok(Terms { items })
    }
}
