// What is wrong with a token, by what is declared and by the limits.
ghost use Rattle.std.specs.Prelude.{◌≡◌, ◌<◌, ℕ, List, [], ◌∷◌, length, nat_lt, MatchOption};
ghost use Rattle.tree_model.specs.Signatures.{Signature as Entries};
ghost use Rattle.formula_grammar.specs.Checks as g;
ghost use Rattle.formula_grammar.specs.Checks.{Environment, check, declared, arity_in, is_among, value_of, index_of};
ghost use Rattle.formula_grammar.specs.Written.{Text};
ghost use Rattle.formula_grammar.specs.Machine as m;
ghost use Rattle.formula_reader.specs.Input.{environment};
ghost use Rattle.formula_reader.specs.Kinds.{head_of};

use formula_grammar::FaultKind;
use signature::{Kind, Signature};

const MOST_NAME_BYTES: usize = 64;

const MOST_ARGUMENTS: usize = 8;

const MOST_SYMBOLS: usize = 4096;

const MOST_PREDICATES: usize = 1024;

const MOST_PARAMETERS: usize = 16;

const MOST_JOINTS: usize = 1000;

const MOST_MOVES: u64 = 1000;

const MOST_NESTINGS: usize = 200;

/// What has arguments: a name, or a further symbol, with its text.
#[derive(Clone, Copy)]
pub(crate) enum Head<'a> {
    Named(&'a str),
    Further(&'a str),
}

fn when(wrong: bool, kind: FaultKind) -> Option<FaultKind>
    ensures { result ≡ g.first_of ((wrong, kind) ∷ []) }
{
    if wrong { Some(kind) } else { None }
}

// The place of a kind in the order in which the kinds count at one token.
fn rank(kind: FaultKind) -> usize
    ensures { result ≡ g.rank kind }
{
    match kind {
        FaultKind::Byte => 0,
        FaultKind::Ended => 1,
        FaultKind::Syntax => 2,
        FaultKind::Unknown => 3,
        FaultKind::Twice => 4,
        FaultKind::Loose => 5,
        FaultKind::Arity => 6,
        FaultKind::Sort => 7,
        FaultKind::Limit => 8,
    }
}

// The one of two that counts.
pub(crate) fn sooner(first: Option<FaultKind>, second: Option<FaultKind>) -> Option<FaultKind>
    ensures { result ≡ g.sooner first second }
{
    match (first, second) {
        (None, _) => second,
        (_, None) => first,
        (Some(a), Some(b)) => if rank(a) <= rank(b) { first } else { second },
    }
}

fn is_long(text: &str) -> bool
    ensures { result ≡ g.is_long text.now }
{
    text.len() > MOST_NAME_BYTES
}

// What a name is declared as, if it is.
fn declared(signature: &Signature, name: &str) -> Option<(Kind, usize)>
    ensures { result ≡ declared signature.now name.now }
{
    let place = signature.find(name)?;
    Some(signature.entry(place))
}

fn arity_in(signature: &Signature, name: &str) -> usize
    ensures { result ≡ arity_in (declared signature.now name.now) }
{
    match declared(signature, name) {
        Some((_, arity)) => arity,
        None => 0,
    }
}

// How many names of this kind are declared.
fn count_of(kind: Kind, signature: &Signature) -> usize
    ensures { result ≡ g.count_of kind signature.now }
{
    let mut count: usize = 0;
    for place in 0..signature.len() {
        let (other, _) = signature.entry(place);
        if other == kind {
            count += 1;
        }
    }
    count
}

// The value of digits, where it has at most 64 bits.
pub(crate) fn value_of(digits: &[u8]) -> Option<u64>
    ensures { MatchOption result (18446744073709551615 < value_of digits.now) (λ value. value ≡ value_of digits.now) }
{
    let mut value: u128 = 0;
    for digit in digits {
        value = value * 10 + u128::from(digit.saturating_sub(b'0'));
        if value > u128::from(u64::MAX) {
            return None;
        }
    }
    u64::try_from(value).ok()
}

// The index of a further symbol.
pub(crate) fn index_of(text: &str) -> Option<u64>
    ensures { MatchOption result (18446744073709551615 < index_of text.now) (λ value. value ≡ index_of text.now) }
{
    match text.as_bytes().split_first() {
        Some((_, digits)) => value_of(digits),
        None => Some(0),
    }
}

// Whether the value of digits is greater than this.
fn is_above(digits: &str, most: u64) -> bool
    ensures { result ≡ nat_lt most (value_of digits.now) }
{
    match value_of(digits.as_bytes()) {
        Some(value) => value > most,
        None => true,
    }
}

// What is wrong with a word, by what it is where it stands.

pub(crate) fn nests(depth: usize) -> Option<FaultKind>
    ensures { (E : Environment) → result ≡ check E (m.opens depth) }
{
    when(depth > MOST_NESTINGS, FaultKind::Limit)
}

pub(crate) fn declares(signature: &Signature, name: &str) -> Option<FaultKind>
    ensures { (n : ℕ) → result ≡ check (environment signature.now n) (m.declares name.now) }
{
    if declared(signature, name).is_some() {
        return Some(FaultKind::Twice);
    }
    let many = count_of(Kind::Symbol, signature) >= MOST_SYMBOLS;
    when(is_long(name) || many, FaultKind::Limit)
}

pub(crate) fn has_arity(digits: &str) -> Option<FaultKind>
    ensures { (E : Environment) (name : Text) → result ≡ check E (m.has_arity name digits.now) }
{
    when(is_above(digits, MOST_ARGUMENTS as u64), FaultKind::Limit)
}

pub(crate) fn declares_predicate(signature: &Signature, name: &str) -> Option<FaultKind>
    ensures { (n : ℕ) → result ≡ check (environment signature.now n) (m.declares_predicate name.now) }
{
    if declared(signature, name).is_some() {
        return Some(FaultKind::Twice);
    }
    let many = count_of(Kind::Pred, signature) >= MOST_PREDICATES;
    when(is_long(name) || many, FaultKind::Limit)
}

// A parameter behind so many others, and whether it is one of them.
pub(crate) fn has_parameter(name: &str, before: usize, twice: bool) -> Option<FaultKind>
    ensures { (E : Environment) (xs : List Text) → before ≡ length xs → twice ≡ is_among name.now xs → result ≡ check E (m.has_parameter name.now xs) }
{
    if twice {
        return Some(FaultKind::Twice);
    }
    when(is_long(name) || before >= MOST_PARAMETERS, FaultKind::Limit)
}

pub(crate) fn joins(joints: usize) -> Option<FaultKind>
    ensures { (σ : Entries) → result ≡ check (environment σ joints) m.joins }
{
    when(joints >= MOST_JOINTS, FaultKind::Limit)
}

pub(crate) fn binds(name: &str, joints: usize) -> Option<FaultKind>
    ensures { (σ : Entries) → result ≡ check (environment σ joints) (m.binds name.now) }
{
    when(is_long(name) || joints >= MOST_JOINTS, FaultKind::Limit)
}

// A variable, and whether it is bound.
pub(crate) fn stands(name: &str, closed: bool, bound: bool) -> Option<FaultKind>
    ensures { (E : Environment) (c : m.Place) → closed ≡ c.closed → bound ≡ is_among name.now c.bound → result ≡ check E (m.stands name.now c) }
{
    if closed && !bound {
        return Some(FaultKind::Loose);
    }
    when(is_long(name), FaultKind::Limit)
}

pub(crate) fn heads(signature: &Signature, head: Head<'_>) -> Option<FaultKind>
    ensures { (n : ℕ) → result ≡ check (environment signature.now n) (m.heads (head_of head.entry)) }
{
    match head {
        Head::Named(name) => match declared(signature, name) {
            None => Some(FaultKind::Unknown),
            Some((Kind::Pred, _)) => Some(FaultKind::Sort),
            Some((Kind::Symbol, _)) => when(is_long(name), FaultKind::Limit),
        },
        Head::Further(text) => when(index_of(text).is_none(), FaultKind::Limit),
    }
}

pub(crate) fn begins_atom(signature: &Signature, name: &str) -> Option<FaultKind>
    ensures { (n : ℕ) → result ≡ check (environment signature.now n) (m.begins_atom name.now) }
{
    if declared(signature, name).is_none() {
        return Some(FaultKind::Unknown);
    }
    when(is_long(name), FaultKind::Limit)
}

pub(crate) fn opens_arguments(signature: &Signature, head: Head<'_>) -> Option<FaultKind>
    ensures { (n : ℕ) → result ≡ check (environment signature.now n) (m.opens_arguments (head_of head.entry)) }
{
    match head {
        Head::Named(name) => when(arity_in(signature, name) == 0, FaultKind::Arity),
        Head::Further(_) => None,
    }
}

pub(crate) fn no_arguments(signature: &Signature, head: Head<'_>) -> Option<FaultKind>
    ensures { (n : ℕ) → result ≡ check (environment signature.now n) (m.no_arguments (head_of head.entry)) }
{
    match head {
        Head::Named(name) => when(arity_in(signature, name) > 0, FaultKind::Arity),
        Head::Further(_) => None,
    }
}

pub(crate) fn separates(signature: &Signature, head: Head<'_>, count: usize) -> Option<FaultKind>
    ensures { (n : ℕ) → result ≡ check (environment signature.now n) (m.separates (head_of head.entry) count) }
{
    match head {
        Head::Named(name) => when(arity_in(signature, name) <= count, FaultKind::Arity),
        Head::Further(_) => when(count >= MOST_ARGUMENTS, FaultKind::Limit),
    }
}

pub(crate) fn closes(signature: &Signature, head: Head<'_>, count: usize) -> Option<FaultKind>
    ensures { (n : ℕ) → result ≡ check (environment signature.now n) (m.closes (head_of head.entry) count) }
{
    match head {
        Head::Named(name) => when(count < arity_in(signature, name), FaultKind::Arity),
        Head::Further(_) => None,
    }
}

pub(crate) fn compares(signature: &Signature, name: &str) -> Option<FaultKind>
    ensures { (n : ℕ) → result ≡ check (environment signature.now n) (m.compares name.now) }
{
    match declared(signature, name) {
        Some((Kind::Pred, _)) => Some(FaultKind::Sort),
        _ => None,
    }
}

pub(crate) fn stands_alone(signature: &Signature, name: &str) -> Option<FaultKind>
    ensures { (n : ℕ) → result ≡ check (environment signature.now n) (m.stands_alone name.now) }
{
    match declared(signature, name) {
        Some((Kind::Symbol, _)) => Some(FaultKind::Sort),
        _ => None,
    }
}

pub(crate) fn plays(signature: &Signature, name: &str) -> Option<FaultKind>
    ensures { (n : ℕ) → result ≡ check (environment signature.now n) (m.plays name.now) }
{
    match declared(signature, name) {
        None => Some(FaultKind::Unknown),
        Some((Kind::Pred, arity)) => {
            if arity != 2 {
                Some(FaultKind::Arity)
            } else {
                when(is_long(name), FaultKind::Limit)
            }
        }
        Some((Kind::Symbol, _)) => Some(FaultKind::Sort),
    }
}

pub(crate) fn counts(digits: &str) -> Option<FaultKind>
    ensures { (E : Environment) → result ≡ check E (m.counts digits.now) }
{
    when(is_above(digits, MOST_MOVES), FaultKind::Limit)
}
