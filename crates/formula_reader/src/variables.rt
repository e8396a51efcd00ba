// The variables of a statement.
ghost use Rattle.std.specs.Prelude.{◌≡◌, ◌≤◌, ◌-◌, List, [], ◌∷◌, ◌++◌, length, map, take, drop, position, Some, IfOk, IfErr, OnOk};
ghost use Rattle.std.specs.Str.{bytes_eq};
ghost use Rattle.formula_grammar.specs.Written.{Text};
ghost use Rattle.formula_grammar.specs.Checks.{is_among};
ghost use Rattle.formula_grammar.specs.Meaning.{first_occurrences, number_in};
ghost use Rattle.formula_reader.specs.Input.{added};

use crate::ReadError;
use formula_ast::{Name, Names};
use indexmap::IndexSet;
use std::alloc::Global;
use std::marker::Model;

/// Names, each once, in the order in which they were added, and those of them that are bound. A name's number, and whether
/// it is bound, are found without going over the others.
#[derive(Drop)]
pub(crate) struct Variables {
    names: IndexSet<String>,
    // How often the name of each number is bound. There may be more counts than names.
    counts: Vec<usize>,
    // The numbers of those that are bound, the outermost first.
    bound: Vec<usize>,
}

impl Model for Variables {
    ghost use Rattle.formula_reader.specs.Input.{Scope};
    ghost use Rattle.formula_reader.specs.Scopes.{texts_of, scope_of, IsCounted};

    ghost Value = { Scope };

    ghost view = { λ v. scope_of (texts_of v.names.keys) v.bound.items };

    ghost invariant = { λ v. IsCounted (texts_of v.names.keys) v.counts.items v.bound.items };
}

impl Variables {
    /// No names. It takes no memory.
    pub(crate) fn new(alloc: Global) -> Variables
        ensures { result ≡ record { names = []; bound = [] } }
    {
        Variables {
            names: IndexSet::new(alloc),
            counts: Vec::new(alloc),
            bound: Vec::new(alloc),
        }
    }

    // The number of a name, if it is there.
    fn find(&self, name: &str) -> Option<usize>
        ensures { result ≡ position (λ other. bytes_eq other name.now) self.now.names }
    {
        self.names.get_index_of(name)
    }

    /// The number of a name, which is added where it is new.
    pub(crate) fn number(&mut self, alloc: Global, name: &str) -> Result<usize, ReadError>
        ensures named { OnOk result (self.new ≡ added self.old (name.now ∷ [])) }
        ensures found { IfOk result (λ n. position (λ other. bytes_eq other name.now) self.new.names ≡ Some n) }
        ensures number { IfOk result (λ n. (more : List Text) → number_in (self.new.names ++ more) name.now ≡ n) }
        ensures no_memory { IfErr result (λ error. error ≡ ReadError.NoMemory) }
    {
        if let Some(number) = self.find(name) {
            return Ok(number);
        }
        let number = self.names.len();
        self.counts.push(0)?;
        self.names.insert(String::from_str(alloc, name)?)?;
        Ok(number)
    }

    /// Whether a name is bound.
    pub(crate) fn is_bound(&self, name: &str) -> bool
        ensures { result ≡ is_among name.now self.now.bound }
    {
        match self.find(name) {
            Some(number) => self.counts[number] > 0,
            None => false,
        }
    }

    /// Binds a name, which is added where it is new.
    pub(crate) fn bind(&mut self, alloc: Global, name: &str) -> Result<(), ReadError>
        ensures bound { OnOk result (self.new ≡ record { names = first_occurrences self.old.names (name.now ∷ []); bound = self.old.bound ++ name.now ∷ [] }) }
        ensures no_memory { IfErr result (λ error. error ≡ ReadError.NoMemory) }
    {
        let number = self.number(alloc, name)?;
        self.bound.push(number)?;
        // No name is bound more often than there are bound names.
        let _ = self.bound.len();
        let _ = self.counts.as_slice();
        self.counts[number] += 1;
        Ok(())
    }

    /// How many times a name was bound that still is.
    pub(crate) fn depth(&self) -> usize
        ensures { result ≡ length self.now.bound }
    {
        self.bound.len()
    }

    /// The numbers of the names that are bound, but for the outermost.
    pub(crate) fn bound_behind(&self, outer: usize) -> &[usize]
        requires { outer ≤ length self.now.bound }
        ensures { (more : List Text) → result.now ≡ map (number_in (self.now.names ++ more)) (drop outer self.now.bound) }
    {
        self.bound.split_at(outer).1
    }

    // The innermost is bound no longer.
    fn release_one(&mut self)
        requires { 1 ≤ length self.old.bound }
        ensures { self.new ≡ record { names = self.old.names; bound = take (length self.old.bound - 1) self.old.bound } }
    {
        if let Some(number) = self.bound.pop() {
            self.counts[number] -= 1;
        }
    }

    /// The outermost alone stay bound.
    pub(crate) fn release(&mut self, outer: usize)
        requires { outer ≤ length self.old.bound }
        ensures { self.new ≡ record { names = self.old.names; bound = take outer self.old.bound } }
    {
        while self.depth() > outer {
            self.release_one();
        }
    }

    /// The names as a list.
    pub(crate) fn into_names(self, alloc: Global) -> Result<Names, ReadError>
        ensures names { IfOk result (λ names. names ≡ self.names) }
        ensures no_memory { IfErr result (λ error. error ≡ ReadError.NoMemory) }
    {
        let mut names = Names::new(alloc);
        for text in self.names {
            names.push(Name::new(text))?;
        }
        Ok(names)
    }
}
