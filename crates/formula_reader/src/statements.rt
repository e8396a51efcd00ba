// Reads statements.
ghost use Rattle.std.specs.Prelude.{◌≡◌, ◌≤◌, ℕ, List, [], ◌∷◌, ◌++◌, true, false, None, IsTrue, IfOk, IfErr, OnOk, MatchResult, length};
ghost use Rattle.formula_ast.specs.Tokens.{Stream, token};
ghost use Rattle.formula_ast.specs.declared.token.Token.{Token};
ghost use Rattle.formula_ast.specs.declared.token.TokenKind.TheVariants as k;
ghost use Rattle.tree_model.specs.Signatures.{Signature as Entries};
ghost use Rattle.formula_grammar.specs.Written.{Text};
ghost use Rattle.formula_grammar.specs.Grammar.{files};
ghost use Rattle.formula_grammar.specs.Machine as m;
ghost use Rattle.formula_grammar.specs.Checks as g;
ghost use Rattle.formula_grammar.specs.Checks.{entry_of};
ghost use Rattle.formula_reader.specs.Input.{left_of, starts};
ghost use Rattle.formula_reader.specs.Faults.{Refuses, RefusesAt, fault_of, Takes, Stops};
ghost use Rattle.formula_reader.specs.Reads.{ReadsDeclaration, ReadsParameter, ReadsParameters, ReadsStatement, ParsesStatement};

use crate::checks::value_of;
use crate::place::Place;
use crate::reader::Reader;
use crate::variables::Variables;
use crate::{ReadError, checks};
use formula_ast::{File, Pred, Statement};
use formula_grammar::FaultKind;
use formula_tokens::TokenKind;
use signature::{DeclareError, Kind, Signature};
use std::alloc::Global;
use std::mem;

// Declares a name that is new.
fn declare(
    signature: &mut Signature,
    name: &str,
    kind: Kind,
    arity: usize,
) -> Result<usize, ReadError>
    requires { g.declared signature.old name.now ≡ None }
    ensures declared { OnOk result (signature.new ≡ signature.old ++ entry_of name.now kind arity ∷ []) }
    ensures place { IfOk result (λ place. place ≡ length signature.old) }
    ensures no_memory { IfErr result (λ error. error ≡ ReadError.NoMemory) }
{
    match signature.declare(name, kind, arity) {
        Ok(place) => Ok(place),
        Err(DeclareError::Twice(_)) => unreachable!(),
        Err(DeclareError::NoMemory) => Err(ReadError::NoMemory),
    }
}

impl<'a> Reader<'a> {
    // Takes the word that begins a statement with a formula.
    fn begin(&mut self, alloc: Global, kind: TokenKind) -> Result<(), ReadError>
        requires { IsTrue (starts kind (left_of self.old)) }
        ensures takes { OnOk result (Takes None self.old self.new) }
        ensures joints { OnOk result (self.new.joints ≡ 0) }
        ensures scope { OnOk result (self.new.scope ≡ record { names = []; bound = [] }) }
        ensures stops { IfErr result (λ error. Stops None self.old error) }
    {
        self.take(kind, None)?;
        self.joints = 0;
        self.scope = Variables::new(alloc);
        Ok(())
    }

    // A name, a slash and a number.
    fn declaration(&mut self, signature: &mut Signature) -> Result<(), ReadError>
        ensures { MatchResult result (λ _. ReadsDeclaration self.old self.new signature.old signature.new) (λ e. RefusesAt m.declaration signature.old self.old e) }
    {
        if !self.sees(TokenKind::Name) {
            return Err(self.fault(FaultKind::Syntax));
        }
        let name = self.text(TokenKind::Name);
        self.take(TokenKind::Name, checks::declares(signature, name))?;
        self.expect(TokenKind::Slash)?;
        if !self.sees(TokenKind::Number) {
            return Err(self.fault(FaultKind::Syntax));
        }
        let digits = self.text(TokenKind::Number);
        self.take(TokenKind::Number, checks::has_arity(digits))?;
        let arity = match value_of(digits.as_bytes()) {
            Some(value) => value as usize,
            None => unreachable!(),
        };
        declare(signature, name, Kind::Symbol, arity)?;
        Ok(())
    }

    // Declarations of symbols.
    fn symbols(&mut self, file: &mut File) -> Result<(), ReadError>
        requires { IsTrue (starts k.Symbol (left_of self.old)) }
        ensures { ParsesStatement result self.old self.new file.old file.new }
    {
        self.take(TokenKind::Symbol, None)?;
        self.declaration(&mut file.signature)?;
        'more: while self.sees(TokenKind::Comma) {
            self.take(TokenKind::Comma, None)?;
            self.declaration(&mut file.signature)?;
        }
        self.expect(TokenKind::Stop)
    }

    // A parameter behind those that are bound.
    fn parameter(&mut self, alloc: Global) -> Result<(), ReadError>
        requires { self.old.scope.names ≡ self.old.scope.bound }
        ensures { (σ : Entries) → MatchResult result (λ _. ReadsParameter σ self.old self.new) (λ e. (p : Text) → RefusesAt (m.parameter p self.old.scope.bound) σ self.old e) }
    {
        if !self.sees(TokenKind::Variable) {
            return Err(self.fault(FaultKind::Syntax));
        }
        let name = self.text(TokenKind::Variable);
        let twice = self.scope.is_bound(name);
        let before = self.scope.depth();
        self.take(
            TokenKind::Variable,
            checks::has_parameter(name, before, twice),
        )?;
        self.scope.bind(alloc, name)?;
        Ok(())
    }

    // Nothing, or parameters in parentheses, and `:=`.
    fn parameters(&mut self, alloc: Global) -> Result<(), ReadError>
        requires { self.old.scope ≡ record { names = []; bound = [] } }
        ensures { (σ : Entries) → MatchResult result (λ _. ReadsParameters σ self.old self.new) (λ e. (p : Text) → RefusesAt (m.header p) σ self.old e) }
    {
        if !self.sees(TokenKind::LeftParen) {
            return self.expect(TokenKind::Define);
        }
        self.take(TokenKind::LeftParen, None)?;
        self.parameter(alloc)?;
        'more: while self.sees(TokenKind::Comma) {
            self.take(TokenKind::Comma, None)?;
            self.parameter(alloc)?;
        }
        self.expect(TokenKind::RightParen)?;
        self.expect(TokenKind::Define)
    }

    // A predicate, which is declared behind its body.
    fn predicate(&mut self, alloc: Global, file: &mut File) -> Result<(), ReadError>
        requires { IsTrue (starts k.Pred (left_of self.old)) }
        ensures { ParsesStatement result self.old self.new file.old file.new }
    {
        self.begin(alloc, TokenKind::Pred)?;
        if !self.sees(TokenKind::Name) {
            return Err(self.fault(FaultKind::Syntax));
        }
        let name = self.text(TokenKind::Name);
        let wrong = checks::declares_predicate(&file.signature, name);
        self.take(TokenKind::Name, wrong)?;
        self.parameters(alloc)?;
        let params = self.scope.depth();
        let place = Place {
            depth: 0,
            closed: true,
        };
        let body = self.operand(alloc, &file.signature, place, 1)?;
        if !self.sees(TokenKind::Stop) {
            return Err(self.fault(FaultKind::Syntax));
        }
        self.take(TokenKind::Stop, None)?;
        let place = declare(&mut file.signature, name, Kind::Pred, params)?;
        let names = mem::replace(&mut self.scope, Variables::new(alloc)).into_names(alloc)?;
        file.preds.push(Pred {
            place,
            params,
            names,
            body,
        })?;
        Ok(())
    }

    // A question.
    fn question(&mut self, alloc: Global, file: &mut File) -> Result<(), ReadError>
        requires { IsTrue (starts k.Solve (left_of self.old)) }
        ensures { ParsesStatement result self.old self.new file.old file.new }
    {
        self.begin(alloc, TokenKind::Solve)?;
        let place = Place {
            depth: 0,
            closed: false,
        };
        let body = self.operand(alloc, &file.signature, place, 1)?;
        self.expect(TokenKind::Stop)?;
        let names = mem::replace(&mut self.scope, Variables::new(alloc)).into_names(alloc)?;
        file.solves.push(Statement { names, body })?;
        Ok(())
    }

    // A statement.
    pub(crate) fn statement(&mut self, alloc: Global, file: &mut File) -> Result<(), ReadError>
        requires { (t : Token) × (more : Stream) × (left_of self.old ≡ token t more) }
        ensures { MatchResult result (λ _. ReadsStatement self.old self.new file.old file.new)
            (λ e. Refuses e (fault_of file.old.signature self.old (m.statements files ∷ []))) }
    {
        if self.sees(TokenKind::Symbol) {
            self.symbols(file)
        } else if self.sees(TokenKind::Pred) {
            self.predicate(alloc, file)
        } else if self.sees(TokenKind::Solve) {
            self.question(alloc, file)
        } else {
            Err(self.fault(FaultKind::Syntax))
        }
    }
}
