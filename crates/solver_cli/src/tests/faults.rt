// Which fault is named, and where.
use super::expect_rows;
use std::test::Fail;

const FIRST_FAULTS: &str = "\
fault 0 byte << #
fault 11 ended << solve X = X
fault 6 syntax << solve .
fault 20 syntax << solve true <-> true <-> true.
fault 6 unknown << solve q(X).
fault 12 twice << symbol f/1, f/2.
fault 17 loose << pred p(X) := X = Y.
fault 22 sort << symbol f/1. solve f(X).
fault 9 limit << symbol f/9.
fault 21 arity << symbol f/2. solve f(X) = X.";

#[test]
fn the_first_fault_is_named(rt: HostRuntime) -> Result<(), Fail> {
    expect_rows(&rt, rt.alloc(), FIRST_FAULTS)
}

// Each way in which a fault of each kind comes about.
const KINDS: &str = "\
// a byte begins no token
fault 0 byte << #
fault 0 byte << \u{c}
fault 11 byte << solve true <- true.
fault 11 byte << solve true <
fault 8 byte << solve X - Y.
fault 11 byte << solve true -
fault 7 byte << solve ~!true.
fault 8 byte << solve X !
fault 10 byte << solve X = $.
fault 10 byte << solve X = $
fault 4 byte << % c^#
// the input ends
fault 11 ended << solve X = X
fault 13 ended << symbol f/1, g
fault 11 ended << solve (true
fault 20 ended << pred p(X) := % true.
fault 19 ended << symbol f/1. solve f
fault 23 ended << symbol a/0. solve X = a
fault 20 ended << symbol f/1. solve (f
fault 27 ended << symbol f/1. solve f(X)  % c
// no file begins so
fault 6 syntax << solve .
fault 20 syntax << solve true <-> true <-> true.
fault 7 syntax << symbol .
fault 13 syntax << solve exists : true.
fault 0 syntax << true.
fault 7 syntax << solve X.
fault 0 syntax << assert true.
fault 13 syntax << solve exists solve: true.
fault 7 syntax << symbol win/1.
// a name is not declared: that of a term, of a call, of a game, of the predicate itself
fault 10 unknown << solve X = q.
fault 6 unknown << solve q(X).
fault 10 unknown << solve win(q, 1, X).
fault 13 unknown << pred p(X) := p(X).
// a name is declared twice, or a parameter stands twice
fault 12 twice << symbol f/1, f/2.
fault 17 twice << symbol f/1. pred f := true.
fault 23 twice << pred p := true. symbol p/0.
fault 10 twice << pred p(X, X) := true.
fault 55 twice << pred p(A, B, C, D, E, F, G, H, I, J, K, L, M, N, O, P, A) := true.
// a variable is neither a parameter nor bound
fault 17 loose << pred p(X) := X = Y.
fault 30 loose << pred p := (exists X: X = X) & X = X.
// the arity of a game, no arguments, none given, too few, too many
fault 29 arity << pred p(X) := true. solve win(p, 1, X).
fault 19 arity << symbol a/0. solve a(X) = X.
fault 23 arity << pred p := true. solve p(X).
fault 20 arity << symbol f/1. solve f = X.
fault 26 arity << pred p(X) := true. solve p.
fault 21 arity << symbol f/2. solve f(X) = X.
fault 21 arity << symbol f/1. solve f(X, X) = X.
// a predicate in place of a symbol, a symbol in place of a predicate
fault 26 sort << pred p := true. solve X = p.
fault 22 sort << symbol f/2. solve win(f, 1, X).
fault 22 sort << symbol f/1. solve f(X).
fault 20 sort << symbol a/0. solve (a).
fault 24 sort << pred p := true. solve p = X.
fault 30 sort << pred p(X) := true. solve p(X) != X.
// the limits on numbers
fault 9 limit << symbol f/9.
fault 9 limit << symbol f/1000000000000000000000000000000.
fault 35 limit << pred p(X, Y) := true. solve win(p, 1001, X).
fault 35 limit << pred p(X, Y) := true. solve win(p, 99999999999999999999, X).
fault 10 limit << solve X = $18446744073709551616.
fault 35 limit << solve X = $0(X, X, X, X, X, X, X, X, X).
fault 55 limit << pred p(A, B, C, D, E, F, G, H, I, J, K, L, M, N, O, P, Q) := true.";

#[test]
fn each_kind_of_fault(rt: HostRuntime) -> Result<(), Fail> {
    expect_rows(&rt, rt.alloc(), KINDS)
}

// What is wrong with a name counts only at a word that the grammar allows there; of two faults at one word the first kind counts.
const GRAMMAR_FIRST: &str = "\
fault 24 sort << pred q := true. solve q = q.
fault 20 syntax << symbol f/1. solve f , X.
fault 24 syntax << symbol f/1. solve X = f , X.
fault 27 syntax << symbol f/1. solve finite(f , X).
fault 52 syntax << pred m(X, Y) := true. symbol f/1. solve win(m, 1, f , X).
fault 30 arity << symbol f/1, g/2. solve g(X, f , X) = X.
fault 20 syntax << symbol a/0. solve a ).
fault 21 sort << symbol a/0. solve (a ).
fault 39 arity << symbol a/0. pred p(X) := true. solve p = a.";

#[test]
fn the_grammar_counts_before_declarations(rt: HostRuntime) -> Result<(), Fail> {
    expect_rows(&rt, rt.alloc(), GRAMMAR_FIRST)
}

// A fault refuses the lawful statements before it too.
const BEHIND_OTHERS: &str = "\
fault 12 byte << solve true. #
fault 37 unknown << solve finite(X). solve exists X: X = q.
fault 32 twice << pred p := true. solve p. symbol p/0.
fault 26 ended << pred p := true. solve true";

#[test]
fn a_fault_refuses_the_whole_file(rt: HostRuntime) -> Result<(), Fail> {
    expect_rows(&rt, rt.alloc(), BEHIND_OTHERS)
}

const ANSWERED: &str = "\
<< % c\r#
<< % ! $ - <
1 true << solve true.
1 true << solve exists X: ((X = X)).
1 true << solve (exists X: exists Y: X = Y).
1 true << solve exists X X: X = X.
1 true << solve exists X: X = Y.
1 true << solve exists X: $007 = $7.
1 false << solve exists X: $7 = $8.
1 true << symbol f/0001. solve exists X: X = f(X).
1 true << solve exists X: X = $00018446744073709551615(X).";

#[test]
fn what_is_lawful_and_answered(rt: HostRuntime) -> Result<(), Fail> {
    expect_rows(&rt, rt.alloc(), ANSWERED)
}
