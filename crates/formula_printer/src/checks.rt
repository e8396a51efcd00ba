//! For tests: whether what the calls ask for holds.
ghost use Rattle.std.specs.Prelude.{◌≡◌, ◌<◌, ◌≢◌, ℕ, length, Some, All, IfSome};
ghost use Rattle.std.specs.Bool.{OnTrue};
ghost use Rattle.tree_model.specs.Signatures.{IsRoot, declared_at};
ghost use Rattle.formula_ast.specs.Forms.{form_of};
ghost use Rattle.formula_ast.specs.Terms.{list_of};
ghost use Rattle.formula_ast.specs.Tokens.{kind_of};
ghost use Rattle.formula_ast.specs.WellFormed.{AreDistinct, AreWords};
ghost use Rattle.formula_printer.specs.Printable.{AreNames, FormFits, TermFits};
ghost use Rattle.formula_printer.specs.Writing.{names_of, text_at};

use formula_ast::{Formula, Names, Term, Terms, TokenKind};
use formula_tokens::next_token;
use signature::{Kind, Signature};
use tree_model::Symbol;

// What kind of token the whole text is.
fn whole_kind(text: &str) -> Option<TokenKind>
    ensures { IfSome result (λ kind. kind_of text.now ≡ Some kind) }
{
    let Ok(Some(token)) = next_token(text.as_bytes(), 0) else {
        return None;
    };
    if token.from != 0 {
        return None;
    }
    if token.to != text.len() {
        return None;
    }
    Some(token.kind)
}

fn is_variable(text: &str) -> bool
    ensures { OnTrue result (kind_of text.now ≡ Some TokenKind.Variable) }
{
    match whole_kind(text) {
        Some(TokenKind::Variable) => true,
        _ => false,
    }
}

fn is_name(text: &str) -> bool
    ensures { OnTrue result (kind_of text.now ≡ Some TokenKind.Name) }
{
    match whole_kind(text) {
        Some(TokenKind::Name) => true,
        _ => false,
    }
}

fn are_variables(names: &Names) -> bool
    ensures { OnTrue result (AreWords TokenKind.Variable names.now) }
{
    for name in names.as_slice() {
        if !is_variable(name.as_str()) {
            return false;
        }
    }
    true
}

fn are_declared(sig: &Signature) -> bool
    ensures { OnTrue result (AreWords TokenKind.Name (names_of sig.now)) }
{
    for i in 0..sig.len() {
        if !is_name(sig.name(i)) {
            return false;
        }
    }
    true
}

// Whether the name at a place stands at none before.
fn is_new(names: &Names, i: usize) -> bool
    requires { i < length names.now }
    ensures { OnTrue result ((j : ℕ) → j < i → text_at names.now j ≢ text_at names.now i) }
{
    for j in 0..i {
        if names.get(j).as_str() == names.get(i).as_str() {
            return false;
        }
    }
    true
}

fn are_distinct(names: &Names) -> bool
    ensures { OnTrue result (AreDistinct names.now) }
{
    for i in 0..names.len() {
        if !is_new(names, i) {
            return false;
        }
    }
    true
}

/// Whether the names can be printed.
pub fn are_names(sig: &Signature, names: &Names) -> bool
    ensures { OnTrue result (AreNames sig.now names.now) }
{
    if !are_variables(names) {
        return false;
    }
    if !are_distinct(names) {
        return false;
    }
    are_declared(sig)
}

// Whether a name is declared like this.
fn is_entry(sig: &Signature, place: usize, kind: Kind, arity: usize) -> bool
    ensures { OnTrue result (declared_at sig.now place ≡ Some (kind, arity)) }
{
    if place >= sig.len() {
        return false;
    }
    let entry = sig.entry(place);
    entry == (kind, arity)
}

fn is_root(sig: &Signature, symbol: &Symbol, arguments: usize) -> bool
    ensures { OnTrue result (IsRoot sig.now symbol.now arguments) }
{
    match *symbol {
        Symbol::Named(place) => is_entry(sig, place, Kind::Symbol, arguments),
        Symbol::Further(_) => true,
    }
}

#[cycle(fits)]
fn term_fits(sig: &Signature, n: usize, t: &Term) -> bool
    ensures { OnTrue result (TermFits sig.now n t.now) }
{
    match t {
        Term::Var(x) => *x < n,
        Term::App(symbol, ts) => {
            if !is_root(sig, symbol, ts.len()) {
                return false;
            }
            terms_fit(sig, n, ts)
        }
    }
}

#[cycle(fits)]
fn terms_fit(sig: &Signature, n: usize, ts: &Terms) -> bool
    ensures { OnTrue result (All (TermFits sig.now n) (list_of ts.now)) }
{
    for t in ts.as_slice() {
        if !term_fits(sig, n, t) {
            return false;
        }
    }
    true
}

fn pair_fits(sig: &Signature, n: usize, t: &Term, u: &Term) -> bool
    ensures { OnTrue result (TermFits sig.now n t.now × TermFits sig.now n u.now) }
{
    if !term_fits(sig, n, t) {
        return false;
    }
    term_fits(sig, n, u)
}

fn call_fits(sig: &Signature, n: usize, p: usize, ts: &Terms) -> bool
    ensures { OnTrue result ((declared_at sig.now p ≡ Some (Kind.Pred, length (list_of ts.now))) × All (TermFits sig.now n) (list_of ts.now)) }
{
    if !is_entry(sig, p, Kind::Pred, ts.len()) {
        return false;
    }
    terms_fit(sig, n, ts)
}

fn win_fits(sig: &Signature, n: usize, p: usize, t: &Term) -> bool
    ensures { OnTrue result ((declared_at sig.now p ≡ Some (Kind.Pred, 2)) × TermFits sig.now n t.now) }
{
    if !is_entry(sig, p, Kind::Pred, 2) {
        return false;
    }
    term_fits(sig, n, t)
}

/// Whether the formula can be printed with n names.
pub fn formula_fits(sig: &Signature, n: usize, f: &Formula) -> bool
    ensures { OnTrue result (FormFits sig.now n (form_of f.now)) }
{
    match f {
        Formula::True | Formula::False => true,
        Formula::Eq(t, u) | Formula::Differ(t, u) => pair_fits(sig, n, t, u),
        Formula::Finite(t) => term_fits(sig, n, t),
        Formula::Call(p, ts) => call_fits(sig, n, *p, ts),
        Formula::Win(p, _, t) => win_fits(sig, n, *p, t),
        Formula::Not(f) => formula_fits(sig, n, f.get()),
        Formula::And(f, g) | Formula::Or(f, g) | Formula::Imp(f, g) | Formula::Iff(f, g) => {
            if !formula_fits(sig, n, f.get()) {
                return false;
            }
            formula_fits(sig, n, g.get())
        }
        Formula::Exists(x, f) | Formula::Forall(x, f) => {
            if *x >= n {
                return false;
            }
            formula_fits(sig, n, f.get())
        }
    }
}
