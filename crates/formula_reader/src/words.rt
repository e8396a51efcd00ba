// Reads words that are checked: variables, names and numbers.
ghost use Rattle.std.specs.Prelude.{◌≡◌, ◌≤◌, ℕ, List, [], ◌∷◌, ◌++◌, suc, IsTrue, IfOk, IfErr, OnOk, MatchResult};
ghost use Rattle.formula_ast.specs.declared.token.TokenKind.TheVariants as k;
ghost use Rattle.tree_model.specs.Signatures.{Signature as Entries};
ghost use Rattle.formula_grammar.specs.Written.{Text, further};
ghost use Rattle.formula_grammar.specs.Words as w;
ghost use Rattle.formula_grammar.specs.Machine as m;
ghost use Rattle.formula_grammar.specs.Checks.{Environment, check, value_of as value, index_of as index};
ghost use Rattle.formula_grammar.specs.Meaning as meaning;
ghost use Rattle.formula_grammar.specs.Meaning.{first_occurrences, number_in, head_symbol};
ghost use Rattle.formula_reader.specs.Input.{added, left_of, starts, text_ahead, environment, place_of};
ghost use Rattle.formula_reader.specs.Faults.{RefusesAt, Takes, TakesWord, KeepsNames, Stops};
ghost use Rattle.formula_reader.specs.Reads.{TakesGame, TakesMoves};
ghost use Rattle.formula_reader.specs.Kinds.{head_of};

use crate::checks::{Head, index_of, value_of};
use crate::place::Place;
use crate::reader::Reader;
use crate::{ReadError, checks};
use formula_grammar::FaultKind;
use formula_tokens::TokenKind;
use signature::Signature;
use std::alloc::Global;
use tree_model::Symbol;

impl<'a> Reader<'a> {
    // Takes a variable that stands as a term, and tells its number.
    pub(crate) fn variable(&mut self, alloc: Global, place: Place) -> Result<usize, ReadError>
        requires { IsTrue (starts k.Variable (left_of self.old)) }
        ensures takes { (E : Environment) → OnOk result (Takes (check E (m.stands (text_ahead self.old) (place_of self.old place))) self.old self.new) }
        ensures joints { OnOk result (self.new.joints ≡ self.old.joints) }
        ensures scope { OnOk result (self.new.scope ≡ added self.old.scope (text_ahead self.old ∷ [])) }
        ensures number { IfOk result (λ n. (more : List Text) → number_in (self.new.scope.names ++ more) (text_ahead self.old) ≡ n) }
        ensures stops { (E : Environment) → IfErr result (λ error. Stops (check E (m.stands (text_ahead self.old) (place_of self.old place))) self.old error) }
    {
        let name = self.text(TokenKind::Variable);
        let bound = self.scope.is_bound(name);
        self.take(
            TokenKind::Variable,
            checks::stands(name, place.closed, bound),
        )?;
        self.scope.number(alloc, name)
    }

    // Takes a variable of a quantifier's list, and binds it.
    pub(crate) fn bind(&mut self, alloc: Global) -> Result<(), ReadError>
        requires { IsTrue (starts k.Variable (left_of self.old)) }
        ensures takes { (σ : Entries) → OnOk result (Takes (check (environment σ self.old.joints) (m.binds (text_ahead self.old))) self.old self.new) }
        ensures joints { OnOk result (self.new.joints ≡ suc self.old.joints) }
        ensures scope { OnOk result (self.new.scope ≡ record { names = first_occurrences self.old.scope.names (text_ahead self.old ∷ []); bound = self.old.scope.bound ++ text_ahead self.old ∷ [] }) }
        ensures stops { (σ : Entries) → IfErr result (λ error. Stops (check (environment σ self.old.joints) (m.binds (text_ahead self.old))) self.old error) }
    {
        let name = self.text(TokenKind::Variable);
        let wrong = checks::binds(name, self.joints);
        self.take(TokenKind::Variable, wrong)?;
        self.joints += 1;
        self.scope.bind(alloc, name)?;
        Ok(())
    }

    // Takes `&` or `|`.
    pub(crate) fn count(&mut self, kind: TokenKind) -> Result<(), ReadError>
        requires { IsTrue (starts kind (left_of self.old)) }
        ensures takes { (σ : Entries) → OnOk result (Takes (check (environment σ self.old.joints) m.joins) self.old self.new) }
        ensures joints { OnOk result (self.new.joints ≡ suc self.old.joints) }
        ensures keeps { OnOk result (KeepsNames self.old self.new) }
        ensures stops { (σ : Entries) → IfErr result (λ error. Stops (check (environment σ self.old.joints) m.joins) self.old error) }
    {
        let wrong = checks::joins(self.joints);
        self.take(kind, wrong)?;
        self.joints += 1;
        Ok(())
    }

    // Takes the first argument of `win`, and tells the predicate's place.
    pub(crate) fn game(&mut self, signature: &Signature) -> Result<usize, ReadError>
        ensures { MatchResult result (λ place. TakesGame signature.now self.old self.new place) (λ e. RefusesAt (m.one k.Name (λ p. m.plays p ∷ [])) signature.now self.old e) }
    {
        if !self.sees(TokenKind::Name) {
            return Err(self.fault(FaultKind::Syntax));
        }
        let name = self.text(TokenKind::Name);
        self.take(TokenKind::Name, checks::plays(signature, name))?;
        Ok(place_in(signature, name))
    }

    // Takes the second argument of `win`.
    pub(crate) fn moves(&mut self) -> Result<u64, ReadError>
        ensures { (σ : Entries) → MatchResult result (λ moves. TakesMoves σ self.old self.new moves) (λ e. RefusesAt (m.one k.Number (λ n. m.counts n ∷ [])) σ self.old e) }
    {
        if !self.sees(TokenKind::Number) {
            return Err(self.fault(FaultKind::Syntax));
        }
        let digits = self.text(TokenKind::Number);
        self.take(TokenKind::Number, checks::counts(digits))?;
        match value_of(digits.as_bytes()) {
            Some(value) => Ok(value),
            None => unreachable!(),
        }
    }
}

// The place of a declared name.
pub(crate) fn place_in(signature: &Signature, name: &str) -> usize
    ensures { result ≡ meaning.place_in signature.now name.now }
{
    match signature.find(name) {
        Some(place) => place,
        None => 0,
    }
}

// The symbol that heads a term.
pub(crate) fn symbol_of(signature: &Signature, head: Head<'_>) -> Symbol
    requires { (text : Text) → head_of head ≡ further text → index text ≤ 18446744073709551615 }
    ensures { result ≡ head_symbol signature.now (head_of head.entry) }
{
    match head {
        Head::Named(name) => Symbol::Named(place_in(signature, name)),
        Head::Further(text) => match index_of(text) {
            Some(index) => Symbol::Further(index),
            None => unreachable!(),
        },
    }
}
