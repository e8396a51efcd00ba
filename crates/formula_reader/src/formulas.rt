// Reads formulas, by recursive descent.
ghost use Rattle.std.specs.Prelude.{◌≡◌, ◌≤◌, IsTrue, MatchResult};
ghost use Rattle.tree_model.specs.Signatures.{Signature as Entries};
ghost use Rattle.formula_ast.specs.declared.token.TokenKind.TheVariants as k;
ghost use Rattle.formula_grammar.specs.Words.{sign};
ghost use Rattle.formula_grammar.specs.Machine as m;
ghost use Rattle.formula_reader.specs.Input.{left_of, starts, place_of};
ghost use Rattle.formula_reader.specs.Kinds.{joint_of, quantifier_of};
ghost use Rattle.formula_reader.specs.Faults.{RefusesAt};
ghost use Rattle.formula_reader.specs.Reads.{ReadsSign, ParsesOperand, ParsesQuantified};

use crate::ReadError;
use crate::parsed::{Joint, Quantifier, UNARY, behind, joined, negated};
use crate::place::Place;
use crate::reader::Reader;
use formula_ast::Formula;
use formula_grammar::FaultKind;
use formula_tokens::TokenKind;
use signature::Signature;
use std::alloc::Global;

impl<'a> Reader<'a> {
    // Takes the sign of a joint, and tells where its right side stands.
    fn join(&mut self, joint: Joint, place: Place) -> Result<Place, ReadError>
        requires depth { place.depth ≤ 200 }
        requires starts { IsTrue (starts (sign (joint_of joint)) (left_of self.old)) }
        ensures { (σ : Entries) → MatchResult result (λ inner. ReadsSign (joint_of joint) place σ self.old self.new inner)
            (λ e. RefusesAt (m.tail (joint_of joint) (place_of self.old place)) σ self.old e) }
    {
        let sign = joint.sign();
        if joint.chains() {
            self.count(sign)?;
            return Ok(place);
        }
        if joint.nests() {
            return self.open(sign, place);
        }
        self.take(sign, None)?;
        Ok(place)
    }

    // A formula of at least this level: 1 for any formula, up to 5 for what nothing joins.
    #[cycle(formulas)]
    pub(crate) fn operand(
        &mut self,
        alloc: Global,
        signature: &Signature,
        place: Place,
        level: usize,
    ) -> Result<Formula, ReadError>
        requires depth { place.depth ≤ 200 }
        requires level { (1 ≤ level) × (level ≤ 5) }
        ensures { ParsesOperand level place result signature.now self.old self.new }
    {
        let Some(joint) = Joint::at_level(level) else {
            return self.unary(alloc, signature, place);
        };
        let mut left = self.operand(alloc, signature, place, level + 1)?;
        'more: while self.sees(joint.sign()) {
            let inner = self.join(joint, place)?;
            let right = self.operand(alloc, signature, inner, joint.right())?;
            left = joined(alloc, joint, left, right)?;
            if !joint.chains() {
                return Ok(left);
            }
        }
        Ok(left)
    }

    // A negation, a quantifier with its body, a formula in parentheses, or an atom.
    #[cycle(formulas)]
    fn unary(
        &mut self,
        alloc: Global,
        signature: &Signature,
        place: Place,
    ) -> Result<Formula, ReadError>
        requires { place.depth ≤ 200 }
        ensures { ParsesOperand 5 place result signature.now self.old self.new }
    {
        if self.sees(TokenKind::Tilde) {
            let inner = self.open(TokenKind::Tilde, place)?;
            negated(alloc, self.operand(alloc, signature, inner, UNARY)?)
        } else if self.sees(TokenKind::Exists) {
            let inner = self.open(TokenKind::Exists, place)?;
            self.quantified(alloc, signature, inner, Quantifier::Exists)
        } else if self.sees(TokenKind::Forall) {
            let inner = self.open(TokenKind::Forall, place)?;
            self.quantified(alloc, signature, inner, Quantifier::Forall)
        } else if self.sees(TokenKind::LeftParen) {
            let inner = self.open(TokenKind::LeftParen, place)?;
            let formula = self.operand(alloc, signature, inner, 1)?;
            self.expect(TokenKind::RightParen)?;
            Ok(formula)
        } else {
            self.atom(alloc, signature, place)
        }
    }

    // The variables of a quantifier, and its body.
    #[cycle(formulas)]
    fn quantified(
        &mut self,
        alloc: Global,
        signature: &Signature,
        place: Place,
        quantifier: Quantifier,
    ) -> Result<Formula, ReadError>
        requires { place.depth ≤ 200 }
        ensures { ParsesQuantified (quantifier_of quantifier) place result signature.now self.old self.new }
    {
        let outer = self.scope.depth();
        if !self.sees(TokenKind::Variable) {
            return Err(self.fault(FaultKind::Syntax));
        }
        self.bind(alloc)?;
        'more: while self.sees(TokenKind::Variable) {
            self.bind(alloc)?;
        }
        if !self.sees(TokenKind::Colon) {
            return Err(self.fault(FaultKind::Syntax));
        }
        self.take(TokenKind::Colon, None)?;
        let body = self.operand(alloc, signature, place, UNARY)?;
        let formula = behind(alloc, quantifier, self.scope.bound_behind(outer), body)?;
        self.scope.release(outer);
        Ok(formula)
    }
}
