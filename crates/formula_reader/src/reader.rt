// Reads token by token, and keeps what is wrong with the next one until it is taken.
ghost use Rattle.std.specs.Prelude.{◌≡◌, ◌≤◌, [], ◌∷◌, false, None, suc, nat_lt, length, slice_range, IsTrue, IfOk, IfErr, OnOk, MatchBool, MatchResult};
ghost use Rattle.std.specs.Str.{IsAscii};
ghost use Rattle.tree_model.specs.Signatures.{Signature as Entries};
ghost use Rattle.formula_ast.specs.Tokens.{Stream, token};
ghost use Rattle.formula_ast.specs.declared.token.Token.{Token};
ghost use Rattle.formula_grammar.specs.Words.{has_text, mark};
ghost use Rattle.formula_grammar.specs.Checks as g;
ghost use Rattle.formula_grammar.specs.Machine as m;
ghost use Rattle.formula_reader.specs.Input.{left_of, starts, text_ahead, environment, place_of};
ghost use Rattle.formula_reader.specs.Faults.{fault_of, Refuses, RefusesAt, at_next, Takes, TakesWord, KeepsNames, Stops};

use crate::ReadError;
use crate::checks::{nests, sooner};
use crate::error::refused;
use crate::place::Place;
use crate::variables::Variables;
use formula_ast::Names;
use formula_grammar::FaultKind;
use formula_tokens::{Token, TokenKind, next_token};
use std::alloc::Global;
use std::marker::Model;
use std::str;

/// A text, and the offset behind the tokens that were taken.
#[derive(Drop)]
pub(crate) struct Reader<'a> {
    bytes: &'a [u8],
    at: usize,
    // The next token, if one is left, or the offset of a byte that begins none.
    next: Result<Option<Token>, usize>,
    // What is wrong with the next token, if the grammar allows it.
    pending: Option<FaultKind>,
    // How many `&`, `|` and variables of quantifiers the statement has so far.
    pub(crate) joints: usize,
    // The statement's variables so far.
    pub(crate) scope: Variables,
}

impl<'a> Model for Reader<'a> {
    ghost use Rattle.std.specs.Prelude.{◌≤◌, length};
    ghost use Rattle.formula_reader.specs.Input.{Input, IsNext};

    ghost Value = { Input };

    ghost view = { λ r. record { bytes = r.bytes.now; at = r.at; pending = r.pending; joints = r.joints; scope = r.scope } };

    ghost invariant = { λ r. (r.joints ≤ 1000) × IsNext r.bytes.now r.at r.next };
}

// The text of a token.
fn text_of<'a>(bytes: &'a [u8], token: Token) -> &'a str
    requires within { (token.from ≤ token.to) × (token.to ≤ length bytes.now) }
    requires ascii { IsAscii (slice_range bytes.now token.from token.to) }
    ensures { result.now ≡ slice_range bytes.now token.from token.to }
{
    match str::from_utf8(&bytes[token.from..token.to]) {
        Ok(text) => text,
        Err(_) => unreachable!(),
    }
}

impl<'a> Reader<'a> {
    pub(crate) fn new(alloc: Global, bytes: &'a [u8]) -> Reader<'a>
        ensures { result ≡ record { bytes = bytes.now; at = 0; pending = None; joints = 0; scope = record { names = []; bound = [] } } }
    {
        Reader {
            bytes,
            at: 0,
            next: next_token(bytes, 0),
            pending: None,
            joints: 0,
            scope: Variables::new(alloc),
        }
    }

    // Whether the next token is of this kind.
    pub(crate) fn sees(&self, kind: TokenKind) -> bool
        ensures { result ≡ starts kind (left_of self.now) }
    {
        match self.next {
            Ok(Some(token)) => token.kind == kind,
            _ => false,
        }
    }

    // The text of the next token, of this kind.
    pub(crate) fn text(&self, kind: TokenKind) -> &'a str
        requires { IsTrue (starts kind (left_of self.now)) }
        ensures { result.now ≡ text_ahead self.now }
    {
        match self.next {
            Ok(Some(token)) => text_of(self.bytes, token),
            _ => unreachable!(),
        }
    }

    // The fault of the next token, or of the end or the byte that stands there.
    pub(crate) fn fault(&self, kind: FaultKind) -> ReadError
        ensures { result ≡ ReadError.Refused (at_next kind (left_of self.now)) }
    {
        match self.next {
            Ok(Some(token)) => refused(token.from, kind),
            Ok(None) => refused(self.bytes.len(), FaultKind::Ended),
            Err(offset) => refused(offset, FaultKind::Byte),
        }
    }

    // Takes the next token, of this kind, unless something is wrong with it.
    pub(crate) fn take(
        &mut self,
        kind: TokenKind,
        wrong: Option<FaultKind>,
    ) -> Result<(), ReadError>
        requires { IsTrue (starts kind (left_of self.old)) }
        ensures takes { OnOk result (Takes wrong self.old self.new) }
        ensures keeps { OnOk result (KeepsNames self.old self.new) }
        ensures joints { OnOk result (self.new.joints ≡ self.old.joints) }
        ensures stops { IfErr result (λ error. Stops wrong self.old error) }
    {
        if let Some(found) = sooner(self.pending, wrong) {
            return Err(self.fault(found));
        }
        match self.next {
            Ok(Some(token)) => {
                self.at = token.to;
                self.next = next_token(self.bytes, token.to);
                self.pending = None;
                Ok(())
            }
            _ => unreachable!(),
        }
    }

    // This is wrong with the next token, if the grammar allows it.
    pub(crate) fn complain(&mut self, wrong: Option<FaultKind>)
        ensures { self.new ≡ record self.old { pending = g.sooner self.old.pending wrong } }
    {
        self.pending = sooner(self.pending, wrong);
    }

    // Takes a token of this kind, whose text does not count.
    pub(crate) fn expect(&mut self, kind: TokenKind) -> Result<(), ReadError>
        requires { has_text kind ≡ false }
        ensures { (σ : Entries) → MatchResult result (λ _. TakesWord (m.plain kind) (mark kind) σ self.old self.new) (λ e. RefusesAt (m.plain kind) σ self.old e) }
    {
        if self.sees(kind) {
            self.take(kind, None)
        } else {
            Err(self.fault(FaultKind::Syntax))
        }
    }

    // Takes a token that opens a nesting, and tells where the reader is then.
    pub(crate) fn open(&mut self, kind: TokenKind, place: Place) -> Result<Place, ReadError>
        requires starts { IsTrue (starts kind (left_of self.old)) }
        requires depth { place.depth ≤ 200 }
        ensures takes { (E : g.Environment) → OnOk result (Takes (g.check E (m.opens (suc place.depth))) self.old self.new) }
        ensures keeps { OnOk result (KeepsNames self.old self.new) }
        ensures joints { OnOk result (self.new.joints ≡ self.old.joints) }
        ensures inner { IfOk result (λ inner. inner ≡ record place { depth = suc place.depth }) }
        ensures depth { IfOk result (λ inner. inner.depth ≤ 200) }
        ensures stops { (E : g.Environment) → IfErr result (λ error. Stops (g.check E (m.opens (suc place.depth))) self.old error) }
    {
        let depth = place.depth + 1;
        self.take(kind, nests(depth))?;
        Ok(Place { depth, ..place })
    }

    // Whether a token is left.
    pub(crate) fn has_token(&self) -> bool
        ensures { MatchBool result ((t : Token) × (more : Stream) × (left_of self.now ≡ token t more))
            ((t : Token) (more : Stream) → ¬ (left_of self.now ≡ token t more)) }
    {
        matches!(self.next, Ok(Some(_)))
    }

    // Nothing is left, and nothing was wrong with that.
    pub(crate) fn finish(&self) -> Result<(), ReadError>
        ensures { (σ : Entries) → MatchResult result (λ _. fault_of σ self.now [] ≡ None) (λ e. Refuses e (fault_of σ self.now [])) }
    {
        match (self.next, self.pending) {
            (Ok(None), None) => Ok(()),
            (Ok(None), Some(found)) => Err(refused(self.bytes.len(), found)),
            _ => Err(self.fault(FaultKind::Syntax)),
        }
    }

    // The names of the variables that were read.
    pub(crate) fn into_names(self, alloc: Global) -> Result<Names, ReadError>
        ensures names { IfOk result (λ names. names ≡ self.entry.scope.names) }
        ensures no_memory { IfErr result (λ error. error ≡ ReadError.NoMemory) }
    {
        self.scope.into_names(alloc)
    }
}
