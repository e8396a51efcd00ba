//! The two games. In `chain`, at place 0, the first further symbol is taken from a term. `graph`, at place 1, has moves
//! between four constants: from each of the first two to the other, from the second to the third, and from the fourth to
//! the first.
ghost use Rattle.std.specs.Prelude.{◌≡◌, ℕ, ◌<◌, [], ◌∷◌, All, IfOk, Some, codes, map};
ghost use Rattle.tree_model.specs.Signatures as over;
ghost use Rattle.tree_model.specs.Signatures.{declared_at};
ghost use Rattle.signature.specs.Names.{HasDistinctNames};
ghost use Rattle.formula_ast.specs.Forms.{form_of};
ghost use Rattle.formula_ast.specs.WellFormed.{TermOver, FormOver, IsPredOver, IsStatementOver, IsWellFormed};

use formula_ast::{File, Formula, Name, Names, Pred, Preds, Statement, Statements, Term, Terms};
use lists::NoMemory;
use signature::{Kind, Signature};
use sqlite_items::Boxed;
use std::alloc::Global;
use tree_model::Symbol;

// ---- terms

// A further symbol without arguments.
fn constant(alloc: Global, index: u64) -> Term
    ensures { (σ : over.Signature) → TermOver σ 2 result }
{
    Term::App(Symbol::Further(index), Terms::new(alloc))
}

// The first further symbol at a term.
pub(super) fn applied(alloc: Global, t: Term) -> Result<Term, NoMemory>
    ensures { IfOk result (λ made. (σ : over.Signature) → TermOver σ 2 t → TermOver σ 2 made) }
{
    let mut terms = Terms::new(alloc);
    terms.push(t)?;
    Ok(Term::App(Symbol::Further(0), terms))
}

// The first further symbol, so often, at the second one.
fn heap(alloc: Global, size: usize) -> Result<Term, NoMemory>
    ensures { IfOk result (λ t. (σ : over.Signature) → TermOver σ 2 t) }
{
    let mut t = constant(alloc, 1);
    for _ in 0..size {
        t = applied(alloc, t)?;
    }
    Ok(t)
}

// A position of the game at this place.
pub(super) fn position(alloc: Global, game: usize, number: usize) -> Result<Term, NoMemory>
    ensures { IfOk result (λ t. (σ : over.Signature) → TermOver σ 2 t) }
{
    if game == 0 {
        heap(alloc, number)
    } else {
        Ok(constant(alloc, number as u64))
    }
}

// ---- bodies

fn is(alloc: Global, variable: usize, index: u64) -> Formula
    requires { variable < 2 }
    ensures { (σ callable : over.Signature) → FormOver σ callable 2 (form_of result) }
{
    Formula::Eq(Term::Var(variable), constant(alloc, index))
}

pub(super) fn both(alloc: Global, f: Formula, g: Formula) -> Result<Formula, NoMemory>
    ensures { IfOk result (λ made. (σ callable : over.Signature) → FormOver σ callable 2 (form_of f) → FormOver σ callable 2 (form_of g) → FormOver σ callable 2 (form_of made)) }
{
    let left = Boxed::new(alloc, f)?;
    Ok(Formula::And(left, Boxed::new(alloc, g)?))
}

fn either(alloc: Global, f: Formula, g: Formula) -> Result<Formula, NoMemory>
    ensures { IfOk result (λ made. (σ callable : over.Signature) → FormOver σ callable 2 (form_of f) → FormOver σ callable 2 (form_of g) → FormOver σ callable 2 (form_of made)) }
{
    let left = Boxed::new(alloc, f)?;
    Ok(Formula::Or(left, Boxed::new(alloc, g)?))
}

// A move from one constant to another.
fn edge(alloc: Global, from: u64, to: u64) -> Result<Formula, NoMemory>
    ensures { IfOk result (λ f. (σ callable : over.Signature) → FormOver σ callable 2 (form_of f)) }
{
    let start = is(alloc, 0, from);
    let end = is(alloc, 1, to);
    let f = both(alloc, start, end)?;
    Ok(f)
}

// One from either of two constants to either of two others.
fn edges(alloc: Global, from: [u64; 2], to: [u64; 2]) -> Result<Formula, NoMemory>
    ensures { IfOk result (λ f. (σ callable : over.Signature) → FormOver σ callable 2 (form_of f)) }
{
    let first = edge(alloc, from[0], to[0])?;
    let second = edge(alloc, from[1], to[1])?;
    let f = either(alloc, first, second)?;
    Ok(f)
}

fn graph(alloc: Global) -> Result<Formula, NoMemory>
    ensures { IfOk result (λ f. (σ callable : over.Signature) → FormOver σ callable 2 (form_of f)) }
{
    let cycle = edges(alloc, [1, 2], [2, 1])?;
    let others = edges(alloc, [2, 4], [3, 1])?;
    let f = either(alloc, cycle, others)?;
    Ok(f)
}

fn chain(alloc: Global) -> Result<Formula, NoMemory>
    ensures { IfOk result (λ f. (σ callable : over.Signature) → FormOver σ callable 2 (form_of f)) }
{
    let t = applied(alloc, Term::Var(1))?;
    Ok(Formula::Eq(Term::Var(0), t))
}

// ---- the file

fn name(alloc: Global, text: &str) -> Result<Name, NoMemory>
    ensures { IfOk result (λ name. name ≡ text.now) }
{
    Ok(Name::new(String::from_str(alloc, text)?))
}

fn names(alloc: Global) -> Result<Names, NoMemory>
    ensures { IfOk result (λ names. names ≡ codes "X" ∷ codes "Y" ∷ []) }
{
    let mut names = Names::new(alloc);
    names.push(name(alloc, "X")?)?;
    names.push(name(alloc, "Y")?)?;
    Ok(names)
}

fn pred(alloc: Global, place: usize, body: Formula) -> Result<Pred, NoMemory>
    requires { (σ callable : over.Signature) → FormOver σ callable 2 (form_of body) }
    ensures declared { IfOk result (λ pred. (pred.place ≡ place) × (pred.params ≡ 2)) }
    ensures over { IfOk result (λ pred. (σ : over.Signature) → IsPredOver σ pred) }
{
    let names = names(alloc)?;
    Ok(Pred {
        place,
        params: 2,
        names,
        body,
    })
}

fn preds(alloc: Global) -> Result<Preds, NoMemory>
    ensures declared { IfOk result (λ preds. map {B = ℕ × ℕ} (λ pred. (pred.place, pred.params)) preds ≡ (0, 2) ∷ (1, 2) ∷ []) }
    ensures over { IfOk result (λ preds. (σ : over.Signature) → All (λ pred. IsPredOver σ pred) preds) }
{
    let first = pred(alloc, 0, chain(alloc)?)?;
    let second = pred(alloc, 1, graph(alloc)?)?;
    let mut preds = Preds::new(alloc);
    preds.push(first)?;
    preds.push(second)?;
    Ok(preds)
}

fn signature(alloc: Global) -> Result<Signature, NoMemory>
    ensures entries { IfOk result (λ σ. σ ≡ record { name = codes "chain"; kind = Kind.Pred; arity = 2 } ∷ record { name = codes "graph"; kind = Kind.Pred; arity = 2 } ∷ []) }
    ensures distinct { IfOk result HasDistinctNames }
{
    let mut signature = Signature::new(alloc);
    let Ok(_) = signature.declare("chain", Kind::Pred, 2) else {
        return Err(NoMemory);
    };
    let Ok(_) = signature.declare("graph", Kind::Pred, 2) else {
        return Err(NoMemory);
    };
    Ok(signature)
}

// The file of both games, without questions.
pub(super) fn file(alloc: Global) -> Result<File, NoMemory>
    ensures formed { IfOk result IsWellFormed }
    ensures chain { IfOk result (λ file. declared_at file.signature 0 ≡ Some (Kind.Pred, 2)) }
    ensures graph { IfOk result (λ file. declared_at file.signature 1 ≡ Some (Kind.Pred, 2)) }
{
    let signature = signature(alloc)?;
    let preds = preds(alloc)?;
    Ok(File {
        signature,
        preds,
        solves: Statements::new(alloc),
    })
}

// ---- questions

// A formula over the variables `X` and `Y` as a statement.
pub(super) fn statement(alloc: Global, body: Formula) -> Result<Statement, NoMemory>
    ensures { IfOk result (λ s. (σ : over.Signature) → FormOver σ σ 2 (form_of body) → IsStatementOver σ s) }
{
    let names = names(alloc)?;
    Ok(Statement { names, body })
}

// Moving from the first term to the second.
pub(super) fn moves(alloc: Global, game: usize, from: Term, to: Term) -> Result<Formula, NoMemory>
    ensures { IfOk result (λ f. (σ : over.Signature) → declared_at σ game ≡ Some (Kind.Pred, 2) → TermOver σ 2 from → TermOver σ 2 to → FormOver σ σ 2 (form_of f)) }
{
    let mut terms = Terms::new(alloc);
    terms.push(from)?;
    terms.push(to)?;
    Ok(Formula::Call(game, terms))
}

// Winning within so many moves at a term.
pub(super) fn wins(game: usize, most: u64, t: Term) -> Formula
    ensures { (σ : over.Signature) → declared_at σ game ≡ Some (Kind.Pred, 2) → TermOver σ 2 t → FormOver σ σ 2 (form_of result) }
{
    Formula::Win(game, most, t)
}

// Winning the chain within so many moves at a term that is its own predecessor.
pub(super) fn loop_wins(alloc: Global, most: u64) -> Result<Formula, NoMemory>
    ensures { IfOk result (λ f. (σ : over.Signature) → declared_at σ 0 ≡ Some (Kind.Pred, 2) → FormOver σ σ 2 (form_of f)) }
{
    let t = applied(alloc, Term::Var(0))?;
    let left = Boxed::new(alloc, Formula::Eq(Term::Var(0), t))?;
    let right = Boxed::new(alloc, Formula::Win(0, most, Term::Var(0)))?;
    let both = Boxed::new(alloc, Formula::And(left, right))?;
    Ok(Formula::Exists(0, both))
}
