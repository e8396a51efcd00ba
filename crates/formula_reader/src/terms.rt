// Reads terms, by recursive descent.
ghost use Rattle.std.specs.Prelude.{◌≡◌, ◌≤◌};
ghost use Rattle.formula_grammar.specs.Written.{Text, further};
ghost use Rattle.formula_grammar.specs.Checks.{index_of};
ghost use Rattle.formula_reader.specs.Kinds.{head_of};
ghost use Rattle.formula_reader.specs.Reads.{ParsesTerm, ParsesArguments, ParsesHeaded};

use crate::checks::Head;
use crate::place::Place;
use crate::reader::Reader;
use crate::words::symbol_of;
use crate::{ReadError, checks};
use formula_ast::{Term, Terms};
use formula_grammar::FaultKind;
use formula_tokens::TokenKind;
use signature::Signature;
use std::alloc::Global;

impl<'a> Reader<'a> {
    // A term.
    #[cycle(terms)]
    pub(crate) fn term(
        &mut self,
        alloc: Global,
        signature: &Signature,
        place: Place,
    ) -> Result<Term, ReadError>
        requires { place.depth ≤ 200 }
        ensures { ParsesTerm place result signature.now self.old self.new }
    {
        if self.sees(TokenKind::Variable) {
            Ok(Term::Var(self.variable(alloc, place)?))
        } else if self.sees(TokenKind::Name) {
            let head = Head::Named(self.text(TokenKind::Name));
            self.take(TokenKind::Name, checks::heads(signature, head))?;
            self.headed(alloc, signature, head, place)
        } else if self.sees(TokenKind::Further) {
            let head = Head::Further(self.text(TokenKind::Further));
            self.take(TokenKind::Further, checks::heads(signature, head))?;
            self.headed(alloc, signature, head, place)
        } else {
            Err(self.fault(FaultKind::Syntax))
        }
    }

    // The arguments of a term, whose head was read.
    #[cycle(terms)]
    pub(crate) fn headed(
        &mut self,
        alloc: Global,
        signature: &Signature,
        head: Head<'a>,
        place: Place,
    ) -> Result<Term, ReadError>
        requires depth { place.depth ≤ 200 }
        requires small { (text : Text) → head_of head ≡ further text → index_of text ≤ 18446744073709551615 }
        ensures { ParsesHeaded (head_of head.entry) place result signature.now self.old self.new }
    {
        let arguments = self.arguments(alloc, signature, head, place)?;
        Ok(Term::App(symbol_of(signature, head), arguments))
    }

    // Nothing, or terms in parentheses.
    #[cycle(terms)]
    pub(crate) fn arguments(
        &mut self,
        alloc: Global,
        signature: &Signature,
        head: Head<'a>,
        place: Place,
    ) -> Result<Terms, ReadError>
        requires { place.depth ≤ 200 }
        ensures { ParsesArguments (head_of head.entry) place result signature.now self.old self.new }
    {
        let mut found = Terms::new(alloc);
        if !self.sees(TokenKind::LeftParen) {
            self.complain(checks::no_arguments(signature, head));
            return Ok(found);
        }
        self.complain(checks::opens_arguments(signature, head));
        let inner = self.open(TokenKind::LeftParen, place)?;
        found.push(self.term(alloc, signature, inner)?)?;
        'more: while self.sees(TokenKind::Comma) {
            let wrong = checks::separates(signature, head, found.len());
            self.take(TokenKind::Comma, wrong)?;
            found.push(self.term(alloc, signature, inner)?)?;
        }
        self.complain(checks::closes(signature, head, found.len()));
        self.expect(TokenKind::RightParen)?;
        Ok(found)
    }
}
