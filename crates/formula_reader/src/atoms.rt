// Reads atoms.
ghost use Rattle.std.specs.Prelude.{◌≡◌, ◌≤◌, ◌||◌, false, true, IsTrue, MatchResult};
ghost use Rattle.tree_model.specs.Signatures.{Signature as Entries};
ghost use Rattle.formula_ast.specs.declared.token.TokenKind.TheVariants as k;
ghost use Rattle.formula_grammar.specs.Words.{truth_kind};
ghost use Rattle.formula_grammar.specs.Machine as m;
ghost use Rattle.formula_reader.specs.Input.{left_of, starts, place_of};
ghost use Rattle.formula_reader.specs.declared.place.Place.{Place as PlaceRead};
ghost use Rattle.formula_reader.specs.Faults.{RefusesAt};
ghost use Rattle.formula_reader.specs.Reads.{TakesParen, ParsesOperand, ParsesComparison};

use crate::checks::Head;
use crate::parsed::{Comparer, compared};
use crate::place::Place;
use crate::reader::Reader;
use crate::words::{place_in, symbol_of};
use crate::{ReadError, checks};
use formula_ast::{Formula, Term};
use formula_grammar::FaultKind;
use formula_tokens::TokenKind;
use signature::Signature;
use std::alloc::Global;

impl<'a> Reader<'a> {
    // Takes the parenthesis behind `finite` or `win`.
    fn opening(&mut self, place: Place) -> Result<Place, ReadError>
        requires { place.depth ≤ 200 }
        ensures { (σ : Entries) → MatchResult result (λ inner. TakesParen place σ self.old self.new inner) (λ e. RefusesAt (m.opening_paren (place_of self.old place)) σ self.old e) }
    {
        if self.sees(TokenKind::LeftParen) {
            self.open(TokenKind::LeftParen, place)
        } else {
            Err(self.fault(FaultKind::Syntax))
        }
    }

    // `finite` and a term in parentheses.
    fn finiteness(
        &mut self,
        alloc: Global,
        signature: &Signature,
        place: Place,
    ) -> Result<Formula, ReadError>
        requires depth { place.depth ≤ 200 }
        requires starts { IsTrue (starts k.Finite (left_of self.old)) }
        ensures { ParsesOperand 5 place result signature.now self.old self.new }
    {
        self.take(TokenKind::Finite, None)?;
        let inner = self.opening(place)?;
        let term = self.term(alloc, signature, inner)?;
        self.expect(TokenKind::RightParen)?;
        Ok(Formula::Finite(term))
    }

    // `win` and its three arguments.
    fn winning(
        &mut self,
        alloc: Global,
        signature: &Signature,
        place: Place,
    ) -> Result<Formula, ReadError>
        requires depth { place.depth ≤ 200 }
        requires starts { IsTrue (starts k.Win (left_of self.old)) }
        ensures { ParsesOperand 5 place result signature.now self.old self.new }
    {
        self.take(TokenKind::Win, None)?;
        let inner = self.opening(place)?;
        let predicate = self.game(signature)?;
        self.expect(TokenKind::Comma)?;
        let moves = self.moves()?;
        self.expect(TokenKind::Comma)?;
        let term = self.term(alloc, signature, inner)?;
        self.expect(TokenKind::RightParen)?;
        Ok(Formula::Win(predicate, moves, term))
    }

    // `=` or `!=` and a term.
    fn comparison(
        &mut self,
        alloc: Global,
        signature: &Signature,
        place: Place,
    ) -> Result<(Comparer, Term), ReadError>
        requires { place.depth ≤ 200 }
        ensures { ParsesComparison place result signature.now self.old self.new }
    {
        if self.sees(TokenKind::Equal) {
            self.take(TokenKind::Equal, None)?;
            Ok((Comparer::Equals, self.term(alloc, signature, place)?))
        } else if self.sees(TokenKind::Differ) {
            self.take(TokenKind::Differ, None)?;
            Ok((Comparer::Differs, self.term(alloc, signature, place)?))
        } else {
            Err(self.fault(FaultKind::Syntax))
        }
    }

    // Whether the next token compares what stands before it.
    fn sees_comparison(&self) -> bool
        ensures { result ≡ (starts k.Equal (left_of self.now) || starts k.Differ (left_of self.now)) }
    {
        self.sees(TokenKind::Equal) || self.sees(TokenKind::Differ)
    }

    // What begins with a name: a call, or a comparison.
    fn named_atom(
        &mut self,
        alloc: Global,
        signature: &Signature,
        place: Place,
    ) -> Result<Formula, ReadError>
        requires depth { place.depth ≤ 200 }
        requires starts { IsTrue (starts k.Name (left_of self.old)) }
        ensures { ParsesOperand 5 place result signature.now self.old self.new }
    {
        let name = self.text(TokenKind::Name);
        self.take(TokenKind::Name, checks::begins_atom(signature, name))?;
        let head = Head::Named(name);
        let arguments = self.arguments(alloc, signature, head, place)?;
        if self.sees_comparison() {
            self.complain(checks::compares(signature, name));
            let (comparer, right) = self.comparison(alloc, signature, place)?;
            let left = Term::App(symbol_of(signature, head), arguments);
            Ok(compared(left, comparer, right))
        } else {
            self.complain(checks::stands_alone(signature, name));
            Ok(Formula::Call(place_in(signature, name), arguments))
        }
    }

    // A comparison that begins with a variable.
    fn variable_atom(
        &mut self,
        alloc: Global,
        signature: &Signature,
        place: Place,
    ) -> Result<Formula, ReadError>
        requires depth { place.depth ≤ 200 }
        requires starts { IsTrue (starts k.Variable (left_of self.old)) }
        ensures { ParsesOperand 5 place result signature.now self.old self.new }
    {
        let left = Term::Var(self.variable(alloc, place)?);
        let (comparer, right) = self.comparison(alloc, signature, place)?;
        Ok(compared(left, comparer, right))
    }

    // A comparison that begins with a further symbol.
    fn further_atom(
        &mut self,
        alloc: Global,
        signature: &Signature,
        place: Place,
    ) -> Result<Formula, ReadError>
        requires depth { place.depth ≤ 200 }
        requires starts { IsTrue (starts k.Further (left_of self.old)) }
        ensures { ParsesOperand 5 place result signature.now self.old self.new }
    {
        let head = Head::Further(self.text(TokenKind::Further));
        self.take(TokenKind::Further, checks::heads(signature, head))?;
        let left = self.headed(alloc, signature, head, place)?;
        let (comparer, right) = self.comparison(alloc, signature, place)?;
        Ok(compared(left, comparer, right))
    }

    // `true` or `false`.
    fn truth(&mut self, kind: TokenKind, value: bool) -> Result<Formula, ReadError>
        requires kind { kind ≡ truth_kind value }
        requires starts { IsTrue (starts kind (left_of self.old)) }
        ensures { (σ : Entries) (place : PlaceRead) → ParsesOperand 5 place result σ self.old self.new }
    {
        self.take(kind, None)?;
        if value {
            Ok(Formula::True)
        } else {
            Ok(Formula::False)
        }
    }

    // An atom.
    pub(crate) fn atom(
        &mut self,
        alloc: Global,
        signature: &Signature,
        place: Place,
    ) -> Result<Formula, ReadError>
        requires depth { place.depth ≤ 200 }
        requires no_tilde { starts k.Tilde (left_of self.old) ≡ false }
        requires no_exists { starts k.«Exists» (left_of self.old) ≡ false }
        requires no_forall { starts k.Forall (left_of self.old) ≡ false }
        requires no_parenthesis { starts k.LeftParen (left_of self.old) ≡ false }
        ensures { ParsesOperand 5 place result signature.now self.old self.new }
    {
        if self.sees(TokenKind::True) {
            self.truth(TokenKind::True, true)
        } else if self.sees(TokenKind::False) {
            self.truth(TokenKind::False, false)
        } else if self.sees(TokenKind::Finite) {
            self.finiteness(alloc, signature, place)
        } else if self.sees(TokenKind::Win) {
            self.winning(alloc, signature, place)
        } else if self.sees(TokenKind::Name) {
            self.named_atom(alloc, signature, place)
        } else if self.sees(TokenKind::Variable) {
            self.variable_atom(alloc, signature, place)
        } else if self.sees(TokenKind::Further) {
            self.further_atom(alloc, signature, place)
        } else {
            Err(self.fault(FaultKind::Syntax))
        }
    }
}
