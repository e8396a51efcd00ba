// Formulas made of the parts that were read.
ghost use Rattle.std.specs.Prelude.{◌≡◌, ◌≤◌, ℕ, IfOk, IfErr, MatchOption};
ghost use Rattle.formula_ast.specs.Forms as form;
ghost use Rattle.formula_ast.specs.Forms.{form_of};
ghost use Rattle.formula_grammar.specs.Words.{sign};
ghost use Rattle.formula_grammar.specs.Grammar.{strength, right};
ghost use Rattle.formula_grammar.specs.Meaning.{behind, comparer_form, joint_form, quantifier_form};
ghost use Rattle.formula_reader.specs.Kinds.{joint_of, comparer_of, quantifier_of, chains, nests};

use crate::ReadError;
use formula_ast::{Formula, Term};
use formula_tokens::TokenKind;
use sqlite_items::Boxed;
use std::alloc::Global;

/// How two terms are compared.
#[derive(Clone, Copy)]
pub(crate) enum Comparer {
    Equals,
    Differs,
}

/// How two formulas are joined.
#[derive(Clone, Copy)]
pub(crate) enum Joint {
    And,
    Or,
    Imp,
    Iff,
}

#[derive(Clone, Copy)]
pub(crate) enum Quantifier {
    Exists,
    Forall,
}

/// The level of what nothing joins.
pub(crate) const UNARY: usize = 5;

impl Joint {
    // The joint of the operands of a level: the weakest stand at 1, and nothing is joined at 5.
    pub(crate) fn at_level(level: usize) -> Option<Joint>
        requires { (1 ≤ level) × (level ≤ 5) }
        ensures { MatchOption result (level ≡ 5) (λ joint. strength (joint_of joint) ≡ level) }
    {
        match level {
            1 => Some(Joint::Iff),
            2 => Some(Joint::Imp),
            3 => Some(Joint::Or),
            4 => Some(Joint::And),
            _ => None,
        }
    }

    pub(crate) fn sign(self) -> TokenKind
        ensures { result ≡ sign (joint_of self) }
    {
        match self {
            Joint::And => TokenKind::Amp,
            Joint::Or => TokenKind::Bar,
            Joint::Imp => TokenKind::Arrow,
            Joint::Iff => TokenKind::DoubleArrow,
        }
    }

    // The level of its right side.
    pub(crate) fn right(self) -> usize
        ensures { result ≡ right (joint_of self) }
    {
        match self {
            Joint::And => UNARY,
            Joint::Or => 4,
            Joint::Imp | Joint::Iff => 2,
        }
    }

    // Whether more may be joined to what it joined.
    pub(crate) fn chains(self) -> bool
        ensures { result ≡ chains (joint_of self) }
    {
        match self {
            Joint::And | Joint::Or => true,
            Joint::Imp | Joint::Iff => false,
        }
    }

    // Whether its right side stands in one more nesting.
    pub(crate) fn nests(self) -> bool
        ensures { result ≡ nests (joint_of self) }
    {
        match self {
            Joint::Imp => true,
            Joint::And | Joint::Or | Joint::Iff => false,
        }
    }
}

// A term compared with another.
#[tactic(auto, using(formula_ast::proofs::Ties::form_rules))]
pub(crate) fn compared(left: Term, comparer: Comparer, right: Term) -> Formula
    ensures { form_of result ≡ comparer_form (comparer_of comparer) left right }
{
    match comparer {
        Comparer::Equals => Formula::Eq(left, right),
        Comparer::Differs => Formula::Differ(left, right),
    }
}

// Two formulas joined.
#[tactic(auto, using(formula_ast::proofs::Ties::form_rules))]
pub(crate) fn joined(
    alloc: Global,
    joint: Joint,
    left: Formula,
    right: Formula,
) -> Result<Formula, ReadError>
    ensures formula { IfOk result (λ f. form_of f ≡ joint_form (joint_of joint) (form_of left) (form_of right)) }
    ensures no_memory { IfErr result (λ error. error ≡ ReadError.NoMemory) }
{
    let a = Boxed::new(alloc, left)?;
    let b = Boxed::new(alloc, right)?;
    match joint {
        Joint::And => Ok(Formula::And(a, b)),
        Joint::Or => Ok(Formula::Or(a, b)),
        Joint::Imp => Ok(Formula::Imp(a, b)),
        Joint::Iff => Ok(Formula::Iff(a, b)),
    }
}

// The negation of a formula.
#[tactic(auto, using(formula_ast::proofs::Ties::form_rules))]
pub(crate) fn negated(alloc: Global, inner: Formula) -> Result<Formula, ReadError>
    ensures formula { IfOk result (λ f. form_of f ≡ form.no (form_of inner)) }
    ensures no_memory { IfErr result (λ error. error ≡ ReadError.NoMemory) }
{
    Ok(Formula::Not(Boxed::new(alloc, inner)?))
}

// A formula behind one quantifier.
#[tactic(auto, using(formula_ast::proofs::Ties::form_rules))]
fn bound_in(
    alloc: Global,
    quantifier: Quantifier,
    variable: usize,
    inner: Formula,
) -> Result<Formula, ReadError>
    ensures formula { IfOk result (λ f. form_of f ≡ quantifier_form (quantifier_of quantifier) variable (form_of inner)) }
    ensures no_memory { IfErr result (λ error. error ≡ ReadError.NoMemory) }
{
    let body = Boxed::new(alloc, inner)?;
    match quantifier {
        Quantifier::Exists => Ok(Formula::Exists(variable, body)),
        Quantifier::Forall => Ok(Formula::Forall(variable, body)),
    }
}

// The formula behind quantifiers for these variables.
pub(crate) fn behind(
    alloc: Global,
    quantifier: Quantifier,
    variables: &[usize],
    inner: Formula,
) -> Result<Formula, ReadError>
    ensures formula { IfOk result (λ f. form_of f ≡ behind (quantifier_form (quantifier_of quantifier)) variables.now (form_of inner)) }
    ensures no_memory { IfErr result (λ error. error ≡ ReadError.NoMemory) }
{
    let mut formula = inner;
    for variable in variables.iter().rev() {
        formula = bound_in(alloc, quantifier, *variable, formula)?;
    }
    Ok(formula)
}
