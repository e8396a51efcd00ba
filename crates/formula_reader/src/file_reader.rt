// Reads whole texts.
ghost use Rattle.std.specs.Prelude.{◌≡◌, Some, IfOk, IfErr};
ghost use Rattle.formula_ast.specs.WellFormed.{IsWellFormed, IsStatementOver};
ghost use Rattle.formula_grammar.specs.FirstFault.{file_fault, formula_fault};
ghost use Rattle.formula_grammar.specs.Reading.{ReadsAs, ReadsAsFormula};
ghost use Rattle.formula_grammar.specs.WellFormedLaws.{HasFewArguments};
ghost use Rattle.formula_reader.specs.Refusals.{IsRefusedWith};

use crate::ReadError;
use crate::error::refused;
use crate::place::Place;
use crate::reader::Reader;
use formula_ast::{File, Preds, Statement, Statements};
use formula_grammar::FaultKind;
use signature::Signature;
use std::alloc::Global;

/// The greatest number of bytes that a file may have.
pub const MOST_BYTES: usize = 1_048_576;

/// Reads a file: declarations of symbols, definitions of predicates, and questions.
pub fn read_file(alloc: Global, bytes: &[u8]) -> Result<File, ReadError>
    ensures file { IfOk result (λ file. ReadsAs bytes.now file) }
    ensures well_formed { IfOk result (λ file. IsWellFormed file) }
    ensures refused { IfErr result (λ error. IsRefusedWith error (λ fault. file_fault bytes.now ≡ Some fault)) }
{
    if bytes.len() > MOST_BYTES {
        return Err(refused(MOST_BYTES, FaultKind::Limit));
    }
    let mut reader = Reader::new(alloc, bytes);
    let mut file = File {
        signature: Signature::new(alloc),
        preds: Preds::new(alloc),
        solves: Statements::new(alloc),
    };
    'statements: while reader.has_token() {
        reader.statement(alloc, &mut file)?;
    }
    reader.finish()?;
    Ok(file)
}

/// Reads one formula up to the end of the bytes, with the names of a signature declared.
pub fn read_formula(alloc: Global, sig: &Signature, bytes: &[u8]) -> Result<Statement, ReadError>
    ensures formula { IfOk result (λ statement. ReadsAsFormula sig.now bytes.now statement) }
    ensures well_formed { HasFewArguments sig.now → IfOk result (λ statement. IsStatementOver sig.now statement) }
    ensures refused { IfErr result (λ error. IsRefusedWith error (λ fault. formula_fault sig.now bytes.now ≡ Some fault)) }
{
    if bytes.len() > MOST_BYTES {
        return Err(refused(MOST_BYTES, FaultKind::Limit));
    }
    let mut reader = Reader::new(alloc, bytes);
    let place = Place {
        depth: 0,
        closed: false,
    };
    let body = reader.operand(alloc, sig, place, 1)?;
    reader.finish()?;
    let names = reader.into_names(alloc)?;
    Ok(Statement { names, body })
}
