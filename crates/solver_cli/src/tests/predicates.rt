// Predicates, calls and wins, and the answers of a model in another language.
use super::expect_rows;
use std::test::Fail;

const CALLS: &str = "\
// none is asked for
<< symbol a/0. pred p(X) := X = a.
<< pred p(A, B, C, D, E, F, G, H, I) := true.
// without parameters
1 true << pred p := true. solve p.
1 false; 2 true << pred p := false. solve p. solve ~p.
1 true; 2 false; 3 true; 4 true << solve true. solve forall X: finite(X). solve ~false. pred p := true. solve X = X.
// its parameters are the terms of the call, and its other variables its own
1 open Y = a & X = b; 1 else ~(Y = a & X = b); 1 holds exists V0 V1: (V0 = a & V1 = b & Y = V0 & X = V1); 1 fails exists V0 V1: (V0 = $0(V0) & V1 = $1(V1) & Y = V0 & X = V1) << symbol a/0, b/0. pred p(X, Y) := X = a & Y = b. solve p(Y, X).
1 true << symbol f/1, a/0. pred p(X) := exists X: X = a. solve p(f(X)).
1 true; 2 open X = f(X); 2 else X != f(X); 2 holds exists V0: (V0 = f(V0) & X = V0); 2 fails exists V0: (V0 = $0(V0) & X = V0) << symbol f/1. pred under(X, Y) := X = f(Y). solve exists Y: under(Y, X). solve under(X, X).
1 open finite(X); 1 else ~finite(X); 1 holds exists V0: (V0 = $0 & X = V0); 1 fails exists V0: (V0 = $0(V0) & X = V0) << symbol f/1. pred p(X) := finite(X). symbol g/1. solve p(g(f(X))).
1 open X = $0; 1 else X != $0; 1 holds exists V0: (V0 = $0 & X = V0); 1 fails exists V0: (V0 = $1(V0) & X = V0) << pred p(X) := X = $0. solve p(X).
// one calls another
1 true; 2 open exists V0: X = f(V0); 2 else ~exists V0: X = f(V0); 2 holds exists V0 V1: (V0 = f(V1) & V1 = $0(V1) & X = V0); 2 fails exists V0: (V0 = $0(V0) & X = V0) << symbol f/1, a/0. pred p(X) := exists Y: X = f(Y). pred q(X) := p(X) & ~p(a). solve q(f(X)). solve q(X).
1 true; 2 true; 3 open X = f(X); 3 else X != f(X); 3 holds exists V0: (V0 = f(V0) & X = V0); 3 fails exists V0: (V0 = $0(V0) & X = V0) << symbol f/1. pred loop(X) := X = f(X). solve exists X: loop(X). solve forall X Y: (loop(X) & loop(Y) -> X = Y). solve loop(X).";

#[test]
fn predicates_are_called(rt: HostRuntime) -> Result<(), Fail> {
    expect_rows(&rt, rt.alloc(), CALLS)
}

const WINS: &str = "\
1 true << symbol s/1. pred move(X, Y) := X = s(Y) | X = s(s(Y)). solve forall X: (win(move, 1, X) <-> exists Y: ((X = s(Y) | X = s(s(Y))) & forall Z: Y != s(Z))).
1 open exists V0: (X = s(V0) & ~exists V1: V0 = s(V1)); 1 else ~exists V0: X = s(V0) | exists V0 V1: (X = s(V0) & V0 = s(V1)); 1 holds exists V0 V1: (V0 = s(V1) & V1 = $0(V1) & X = V0); 1 fails exists V0: (V0 = $0(V0) & X = V0) << symbol s/1. pred move(X, Y) := X = s(Y). solve win(move, 1, X).
1 true << symbol s/1. pred move(X, Y) := X = s(Y). solve exists X: (finite(X) & ~win(move, 1, X) & win(move, 2, X)).
// numbers, of which one or two are taken away
1 true; 2 false; 3 true; 4 false; 5 false << symbol s/1, z/0.^pred move(X, Y) := X = s(Y) | X = s(s(Y)).^solve win(move, 1, s(z)).^solve win(move, 1, s(s(s(z)))).^solve win(move, 2, s(s(s(s(z))))).^solve exists X: (X = s(X) & win(move, 3, X)).^solve win(move, 0, z).^
// two piles
1 true; 2 false; 3 false << symbol p/2, s/1, z/0.^pred move(X, Y) := exists A B: (Y = p(A, B) & (X = p(s(A), B) | X = p(A, s(B)))).^solve win(move, 1, p(s(z), z)).^solve win(move, 1, p(s(z), s(z))).^solve exists X: (X = s(X) & win(move, 1, p(X, z))).^
// a step to one of two subtrees
1 true; 2 false; 3 true << symbol u/2, e/0.^pred move(X, Y) := exists A: (X = u(Y, A) | X = u(A, Y)).^solve win(move, 1, u(e, u(e, e))).^solve win(move, 1, u(u(e, e), u(e, e))).^solve exists X: (X = u(X, e) & win(move, 1, X)).^";

#[test]
fn wins_are_answered(rt: HostRuntime) -> Result<(), Fail> {
    expect_rows(&rt, rt.alloc(), WINS)
}

// A file as a user writes it, with `^` for the ends of its lines.
const LIGHTS: &str = "\
1 true; 2 false; 3 true; 4 true; 5 true; 6 false; 7 true; 8 false; 9 open exists V0 V1: (L = cons(V0, V1) & V0 = red); 9 else ~exists V0 V1: (L = cons(V0, V1) & V0 = red); 9 holds exists V0 V1 V2: (V0 = cons(V1, V2) & V1 = red & V2 = $0(V2) & L = V0); 9 fails exists V0: (V0 = $0(V0) & L = V0); 10 open X = red | X = green; 10 else X != red & X != green; 10 holds exists V0: (V0 = red & X = V0); 10 fails exists V0: (V0 = $0(V0) & X = V0) << % lists of lights, some of them without end^symbol nil/0, cons/2.^symbol red/0, green/0, blue/0.^pred light(X) := X = red | X = green | X = blue.^pred starts(L, X) := exists T: L = cons(X, T).^pred swing(L, X, Y) := L = cons(X, cons(Y, L)).^solve exists L: swing(L, red, green).^solve exists L: (swing(L, red, green) & finite(L)).^solve forall L M: (swing(L, red, green) & swing(M, red, green) -> L = M).^solve forall L: (L = cons(red, L) -> swing(L, red, red)).^solve forall L X: (starts(L, X) & finite(L) -> finite(X)).^solve forall L: (finite(L) -> L = nil | exists X: starts(L, X)).^solve exists X: (light(X) & X != red & X != green).^solve forall X: light(X).^solve starts(L, red).^solve light(X) & X != blue.^";

#[test]
fn lists_of_lights(rt: HostRuntime) -> Result<(), Fail> {
    expect_rows(&rt, rt.alloc(), LIGHTS)
}

// The lines, `<<`, and the file, with random moves, predicates and questions.
const RANDOM: &str = "\
1 true; 2 open X != z; 2 else X = z; 2 holds exists V0: (V0 = $0(V0) & X = V0); \
    2 fails exists V0: (V0 = z & X = V0) << symbol s/1, g/2, z/0. \
    pred m(X, Y) := exists A B: (X = g(A, B) & Y = g(B, A) & A != B). solve forall X: (win(m, 1, X) -> finite(X)). \
    solve win(m, 2, X) <-> X = z.
1 open X != z; 1 else X = z; 1 holds exists V0: (V0 = $0(V0) & X = V0); 1 fails exists V0: (V0 = z & X = V0); \
    2 false << symbol s/1, g/2, z/0. pred m(X, Y) := X = s(Y) & ~finite(X) | X = Y & X != z. \
    pred q(X) := exists Y: (m(X, Y) & ~win(m, 1, Y)). solve q(X) & q(s(X)). solve win(m, 3, g(X, X)).
1 open X = $4; 1 else X != $4; 1 holds exists V0: (V0 = $4 & X = V0); 1 fails exists V0: (V0 = $0(V0) & X = V0); \
    2 false << symbol s/1, g/2, z/0. pred m(X, Y) := X = g(Y, Y). pred q(X) := ~exists Y: m(X, Y). \
    solve ~q(g($4, X)). solve forall X: (q(X) -> win(m, 2, X)).
1 false; 2 true << symbol s/1, g/2, z/0. pred m(X, Y) := X = $3(Y) | X = $4 & Y = z. pred q(X) := m(X, X) | X = z. \
    solve exists X: (q(X) & X = g(g(z, X), s(X))). solve q(s(s(z))) -> finite(X).
1 open X = s(X) | finite(X); 1 else X != s(X) & ~finite(X); 1 holds exists V0: (V0 = s(V0) & X = V0); \
    1 fails exists V0: (V0 = $0(V0) & X = V0); 2 false << symbol s/1, g/2, z/0. pred m(X, Y) := Y = X & X = s(X). \
    pred q(X) := ~exists Y: m(X, Y). solve q(s(X)) -> finite(X). solve ~q(g(s(X), s(z))).
1 true; 2 false << symbol s/1, g/2, z/0. pred m(X, Y) := (X = Y -> false & X = s(Y)) | X = s(Y) & finite(Y). \
    solve ~win(m, 1, g(g(X, X), X)). solve win(m, 0, X) & X != $4.
1 false; 2 false << symbol s/1, g/2, z/0. \
    pred m(X, Y) := exists A B: (X = g(s(A), B) & Y = g(B, A)) | X = g(s(Y), Y). \
    pred q(X) := exists Y: (m(X, Y) & m(Y, X)). solve forall X: (q(X) -> win(m, 0, X)). \
    solve exists X: (q(X) & X = g(s($4), g(X, X))).
1 true << symbol s/1, g/2, z/0. pred m(X, Y) := exists A: (X = g(A, s(Y))) | Y = s(X) & X = z. \
    pred q(X) := win(m, 1, X) & finite(X). solve forall X: (q(X) -> win(m, 1, X)).
1 open X != $4; 1 else X = $4; 1 holds exists V0: (V0 = $0(V0) & X = V0); 1 fails exists V0: (V0 = $4 & X = V0); \
    2 false << symbol s/1, g/2, z/0. pred m(X, Y) := X = Y & X != z. solve win(m, 1, X) <-> X = $4. \
    solve exists X: (win(m, 2, X) & ~win(m, 1, X)).
1 false; 2 open finite(X); 2 else ~finite(X); 2 holds exists V0: (V0 = $0 & X = V0); \
    2 fails exists V0: (V0 = $0(V0) & X = V0) << symbol s/1, g/2, z/0. \
    pred m(X, Y) := forall A: Y != s(A) & X = s(Y). pred q(X) := ~win(m, 1, X). solve q(s(g(X, X))). \
    solve q(g(g(z, $4), s(X))) -> finite(X).
1 true; 2 false << symbol s/1, g/2, z/0. pred m(X, Y) := X = s(Y) | exists A: (X = g(A, Y) & A != Y). \
    solve forall X: (win(m, 0, X) -> finite(X)). solve exists X: (finite(X) & win(m, 1, g(X, s(g(Y, z))))).
1 open ~exists V0: X = g(X, V0) & X != z; 1 else exists V0: X = g(X, V0) | X = z; \
    1 holds exists V0: (V0 = $0(V0) & X = V0); 1 fails exists V0 V1: (V0 = g(V0, V1) & V1 = $0(V1) & X = V0) << \
    symbol s/1, g/2, z/0. pred m(X, Y) := exists A: X = g(Y, A). pred q(X) := m(X, X) | X = z. solve ~q(X).
1 false; 2 false << symbol s/1, g/2, z/0. pred m(X, Y) := X = g(z, Y) | X = g(Y, X). \
    pred q(X) := ~exists Y: m(X, Y). solve forall X: (q(X) -> win(m, 0, X)). \
    solve exists Y: (m($4, Y) & ~exists Z: m(Y, Z)).
1 true; 2 true << symbol s/1, g/2, z/0. pred m(X, Y) := X = s(g(Y, Y)). \
    solve exists X: (win(m, 4, X) & ~win(m, 3, X)). solve ~win(m, 1, g(X, s($4))).
1 true; 2 false << symbol s/1, g/2, z/0. pred m(X, Y) := X = g(Y, z) | (X = Y -> false & X = s(Y)). \
    pred q(X) := forall Y: (m(X, Y) -> win(m, 1, Y)). solve ~q(s(s($4))). solve q(g(X, Y)) & X != Y.
1 true; 2 false << symbol s/1, g/2, z/0. pred m(X, Y) := X = s(s(Y)) | X = $4 & Y = z. \
    solve exists X: (win(m, 3, X) & ~win(m, 2, X)). solve win(m, 1, g(g(X, X), g($4, $4))).
1 open X = s(X); 1 else X != s(X); 1 holds exists V0: (V0 = s(V0) & X = V0); \
    1 fails exists V0: (V0 = $0(V0) & X = V0); 2 false << symbol s/1, g/2, z/0. \
    pred m(X, Y) := Y = X & X = s(X) | X = s(Y) & Y != z. pred q(X) := m(X, X) | X = z. solve q(X) & q(s(X)). \
    solve win(m, 0, g(s($4), s(g($4, z)))).
1 open X = $3(Y) & Y != $3(X); 1 else X != $3(Y) | X = $3(Y) & Y = $3(X); \
    1 holds exists V0 V1: (V0 = $3(V1) & V1 = $0(V1) & X = V0 & Y = V1); \
    1 fails exists V0 V1: (V0 = $0(V0) & V1 = $1(V1) & X = V0 & Y = V1) << symbol s/1, g/2, z/0. \
    pred m(X, Y) := X = $3(Y). solve m(X, Y) & ~m(Y, X).
1 false << symbol s/1, g/2, z/0. pred m(X, Y) := forall A: Y != s(A) & X = s(Y) | exists A: X = g(A, Y). \
    pred q(X) := exists Y: (m(X, Y) & ~win(m, 1, Y)). solve exists X: (q(X) & X = $4).
1 true; 2 false << symbol s/1, g/2, z/0. pred m(X, Y) := X = Y & X != z | X = s(Y) & ~finite(X). \
    pred q(X) := ~win(m, 1, X). solve q(X) <-> q(Y). solve ~q(s(s(z))).
1 true; 2 open X = z; 2 else X != z; 2 holds exists V0: (V0 = z & X = V0); \
    2 fails exists V0: (V0 = $0(V0) & X = V0) << symbol s/1, g/2, z/0. pred m(X, Y) := Y = s(X) & X = z. \
    solve forall X: (win(m, 2, X) -> finite(X)). solve win(m, 3, X) & X != s(s(s(z))).
1 open exists V0: X = s(V0); 1 else ~exists V0: X = s(V0); \
    1 holds exists V0 V1: (V0 = s(V1) & V1 = $0(V1) & X = V0); 1 fails exists V0: (V0 = $0(V0) & X = V0); 2 false << \
    symbol s/1, g/2, z/0. pred m(X, Y) := X = s(Y). solve ~win(m, 1, s(X)). \
    solve exists Y: (m(s(s(X)), Y) & ~exists Z: m(Y, Z)).
1 false << symbol s/1, g/2, z/0. pred m(X, Y) := X = $3(Y) | (X = Y -> false & X = s(Y)). \
    pred q(X) := exists Y: (m(X, Y) & m(Y, X)). solve forall X: (q(X) -> win(m, 2, X)).
1 open X = $4 | finite(X); 1 else X != $4 & ~finite(X); 1 holds exists V0: (V0 = $4 & X = V0); \
    1 fails exists V0: (V0 = $0(V0) & X = V0) << symbol s/1, g/2, z/0. pred m(X, Y) := X = $4 & Y = z. \
    pred q(X) := ~exists Y: m(X, Y). solve q(X) -> finite(X).
1 false; 2 true << symbol s/1, g/2, z/0. \
    pred m(X, Y) := X = s(g(Y, Y)) | exists A B: (X = g(A, B) & Y = g(B, A) & A != B). \
    pred q(X) := win(m, 1, X) & finite(X). solve exists Y: (m(s(s(X)), Y) & ~exists Z: m(Y, Z)). \
    solve q(s(s(X))) -> finite(X).
1 true << symbol s/1, g/2, z/0. pred m(X, Y) := X = s(Y) & finite(Y) | forall A: Y != s(A) & X = s(Y). \
    pred q(X) := forall Y: (m(X, Y) -> win(m, 1, Y)). solve q(g(X, g(z, X))).
1 open ~exists V0: (X = s(V0) & V0 = z); 1 else exists V0: (X = s(V0) & V0 = z); \
    1 holds exists V0: (V0 = $0(V0) & X = V0); 1 fails exists V0 V1: (V0 = s(V1) & V1 = z & X = V0); 2 false << \
    symbol s/1, g/2, z/0. pred m(X, Y) := Y = X & X = s(X). solve win(m, 1, X) <-> X = s(z). solve win(m, 2, z).
1 false << symbol s/1, g/2, z/0. pred m(X, Y) := exists A: (X = g(A, s(Y))) | X = s(Y) & Y != z. \
    pred q(X) := ~exists Y: m(X, Y). solve forall X: (q(X) -> win(m, 0, X)).
1 open X != g(X, X) & X != $3(X) & X != z; 1 else X = g(X, X) | X = $3(X) | X = z; \
    1 holds exists V0: (V0 = $0(V0) & X = V0); 1 fails exists V0: (V0 = g(V0, V0) & X = V0) << symbol s/1, g/2, z/0. \
    pred m(X, Y) := X = g(Y, X) | X = $3(Y). pred q(X) := m(X, X) | X = z. solve ~q(X).
1 true; 2 false << symbol s/1, g/2, z/0. pred m(X, Y) := X = g(Y, Y) | X = s(s(Y)). \
    pred q(X) := win(m, 1, X) & finite(X). solve q(s($4)) -> finite(X). solve q(g(X, Y)) & X != Y.
1 false; 2 false << symbol s/1, g/2, z/0. pred m(X, Y) := X = g(s(Y), Y) | (X = Y -> false & X = s(Y)). \
    pred q(X) := exists Y: (m(X, Y) & ~win(m, 1, Y)). solve forall X: (q(X) -> win(m, 1, X)). solve win(m, 1, s(z)).
1 true << symbol s/1, g/2, z/0. pred m(X, Y) := X = g(Y, z) | exists A: X = g(Y, A). \
    pred q(X) := win(m, 1, X) & finite(X). solve q($4) -> finite(X).
1 true; 2 open X = $4; 2 else X != $4; 2 holds exists V0: (V0 = $4 & X = V0); \
    2 fails exists V0: (V0 = $0(V0) & X = V0) << symbol s/1, g/2, z/0. pred m(X, Y) := X = $4 & Y = z. \
    solve forall X: (m(X, s(g(s($4), s($4)))) -> win(m, 1, X)). solve win(m, 3, X).
1 false << symbol s/1, g/2, z/0. pred m(X, Y) := Y = s(X) & X = z | exists A: X = g(A, Y). \
    pred q(X) := forall Y: (m(X, Y) -> win(m, 1, Y)). solve ~q(s(s(X))).
1 false << symbol s/1, g/2, z/0. pred m(X, Y) := X = s(g(Y, Y)) | X = g(z, Y). pred q(X) := ~win(m, 1, X). \
    solve ~q($4).
1 true; 2 false << symbol s/1, g/2, z/0. \
    pred m(X, Y) := X = s(Y) & finite(Y) | exists A B: (X = g(s(A), B) & Y = g(B, A)). pred q(X) := m(X, X) | X = z. \
    solve q(s(X)) -> finite(X). solve win(m, 2, $4).
1 true; 2 false << symbol s/1, g/2, z/0. pred m(X, Y) := X = $3(Y) | exists A: (X = g(A, Y) & A != Y). \
    pred q(X) := m(X, X) | X = z. solve q(z). solve win(m, 1, s(s(X))).
1 open Y != X; 1 else Y = X; 1 holds exists V0 V1: (V0 = $0(V0) & V1 = $1(V1) & X = V0 & Y = V1); \
    1 fails exists V0: (V0 = $0(V0) & X = V0 & Y = V0) << symbol s/1, g/2, z/0. pred m(X, Y) := X = g(Y, Y). \
    pred q(X) := ~win(m, 1, X). solve q(g(X, Y)) & X != Y.
1 true; 2 true << symbol s/1, g/2, z/0. pred m(X, Y) := exists A: (X = g(A, s(Y))) | X = $4 & Y = z. \
    pred q(X) := exists Y: (m(X, Y) & m(Y, X)). solve ~q(g(X, g(X, X))). solve ~q(z).
1 false << symbol s/1, g/2, z/0. pred m(X, Y) := (X = Y -> false & X = s(Y)) | X = s(Y) & finite(Y). \
    solve exists X: (win(m, 4, X) & ~win(m, 3, X)).
1 true; 2 false << symbol s/1, g/2, z/0. pred m(X, Y) := X = s(Y) & Y != z | forall A: Y != s(A) & X = s(Y). \
    pred q(X) := ~exists Y: m(X, Y). solve exists X: (q(X) & X = X). solve win(m, 0, s(X)).
1 true; 2 false << symbol s/1, g/2, z/0. \
    pred m(X, Y) := X = Y & X != z | exists A B: (X = g(s(A), B) & Y = g(B, A)). \
    pred q(X) := win(m, 1, X) & finite(X). solve q(X) <-> q(Y). solve q(s(z)).
1 open finite(X); 1 else ~finite(X); 1 holds exists V0: (V0 = $0 & X = V0); \
    1 fails exists V0: (V0 = $0(V0) & X = V0); 2 true << symbol s/1, g/2, z/0. pred m(X, Y) := X = s(Y) & finite(Y). \
    solve win(m, 1, s(g(z, X))). solve ~win(m, 2, g(s(z), $4)).
1 false; 2 false << symbol s/1, g/2, z/0. pred m(X, Y) := X = s(Y) & ~finite(X). \
    pred q(X) := exists Y: (m(X, Y) & m(Y, X)). solve win(m, 2, $4). solve forall X: (q(X) -> win(m, 3, X)).
1 true << symbol s/1, g/2, z/0. \
    pred m(X, Y) := forall A: Y != s(A) & X = s(Y) | exists A B: (X = g(A, B) & Y = g(B, A) & A != B). \
    pred q(X) := ~win(m, 1, X). solve q(g(g(z, z), g(z, X))).
1 true << symbol s/1, g/2, z/0. pred m(X, Y) := X = g(s(Y), Y) | X = s(s(Y)). \
    pred q(X) := exists Y: (m(X, Y) & ~win(m, 1, Y)). solve q(g(s(z), s(X))) -> finite(X).
1 false << symbol s/1, g/2, z/0. pred m(X, Y) := X = Y & X != z | X = g(Y, z). pred q(X) := ~exists Y: m(X, Y). \
    solve forall X: (q(X) -> win(m, 0, X)).
1 open exists V0: X = s(V0); 1 else ~exists V0: X = s(V0); \
    1 holds exists V0 V1: (V0 = s(V1) & V1 = $0(V1) & X = V0); 1 fails exists V0: (V0 = $0(V0) & X = V0) << \
    symbol s/1, g/2, z/0. pred m(X, Y) := exists A B: (X = g(s(A), B) & Y = g(B, A)). solve ~win(m, 1, g(s(z), X)).
1 open ~exists V0: X = $3(V0); 1 else exists V0: X = $3(V0); 1 holds exists V0: (V0 = $0(V0) & X = V0); \
    1 fails exists V0 V1: (V0 = $3(V1) & V1 = $0(V1) & X = V0) << symbol s/1, g/2, z/0. pred m(X, Y) := X = $3(Y). \
    pred q(X) := ~exists Y: m(X, Y). solve q(X).
1 false; 2 true << symbol s/1, g/2, z/0. pred m(X, Y) := X = g(z, Y) | Y = X & X = s(X). \
    solve exists X: (X = s(X) & win(m, 1, X)). solve forall X: (win(m, 0, X) -> finite(X)).
1 false << symbol s/1, g/2, z/0. pred m(X, Y) := X = s(Y) | exists A: (X = g(A, s(Y))). \
    pred q(X) := ~exists Y: m(X, Y). solve ~q(g(g(X, z), z)).
1 true; 2 false << symbol s/1, g/2, z/0. pred m(X, Y) := exists A: (X = g(A, Y) & A != Y) | exists A: X = g(Y, A). \
    solve exists X: (win(m, 1, X) & ~win(m, 0, X)). solve win(m, 1, s(z)).
1 false; 2 open X = $4; 2 else X != $4; 2 holds exists V0: (V0 = $4 & X = V0); \
    2 fails exists V0: (V0 = $0(V0) & X = V0) << symbol s/1, g/2, z/0. pred m(X, Y) := X = $4 & Y = z. \
    solve m(g(s(X), s(z)), Y) & win(m, 1, X). solve win(m, 2, X) & X != g(g(g(z, z), g($4, z)), s(s(z))).
1 true; 2 false << symbol s/1, g/2, z/0. pred m(X, Y) := X = g(Y, Y) | Y = s(X) & X = z. \
    pred q(X) := win(m, 1, X) & finite(X). solve forall X: (q(X) -> win(m, 1, X)). solve q($4).
1 false; 2 false << symbol s/1, g/2, z/0. pred m(X, Y) := X = g(Y, X). pred q(X) := exists Y: (m(X, Y) & m(Y, X)). \
    solve exists X: (q(X) & X = g(g(z, $4), X)). solve forall X: (q(X) -> win(m, 0, X)).
1 false << symbol s/1, g/2, z/0. pred m(X, Y) := X = $3(Y) | exists A B: (X = g(A, B) & Y = g(B, A) & A != B). \
    solve forall X: (win(m, 2, X) -> finite(X)).
1 true; 2 false << symbol s/1, g/2, z/0. pred m(X, Y) := X = g(Y, z). \
    solve exists X: (win(m, 4, X) & ~win(m, 3, X)). solve exists X: (X = g(X, X) & win(m, 0, X)).
1 true << symbol s/1, g/2, z/0. pred m(X, Y) := X = s(s(Y)) | X = s(g(Y, Y)). \
    pred q(X) := exists Y: (m(X, Y) & m(Y, X)). solve q(g(z, g(X, X))) -> finite(X).
1 false << symbol s/1, g/2, z/0. pred m(X, Y) := exists A: X = g(Y, A) | forall A: Y != s(A) & X = s(Y). \
    pred q(X) := forall Y: (m(X, Y) -> win(m, 1, Y)). solve q(s(z)).
1 false; 2 false << symbol s/1, g/2, z/0. pred m(X, Y) := Y = X & X = s(X) | X = s(Y) & finite(Y). \
    pred q(X) := ~win(m, 1, X). solve ~q(s(s(z))). solve win(m, 2, g($4, X)).
1 true; 2 false << symbol finite_/1. pred edge(V0, SYMBOL) := exists V0: (finite_(finite_(V0)) != V0). \
    pred p2(V0, X) := win(edge, 2, X) | win(edge, 2, V0). solve forall A9b: (edge(A9b, A9b) | A9b != $2(A9b)). \
    solve ~(edge(SYMBOL, SYMBOL)).
1 true; 2 open ~finite(A9b); 2 else finite(A9b); 2 holds exists V0: (V0 = $0(V0) & A9b = V0); \
    2 fails exists V0: (V0 = $0 & A9b = V0) << symbol fOO/2. pred starts(V1, X_1) := V1 != fOO(V1, X_1). \
    pred q(W, Xs) := (finite(W)) & starts(Xs, Xs). solve exists U: (win(q, 1, U)). solve ~(finite($1(A9b))).
1 open Y = $7 | exists V0: (Y = y(V0) & V0 = y(Y)); 1 else Y != $7 & ~exists V0: (Y = y(V0) & V0 = y(Y)); \
    1 holds exists V0: (V0 = $7 & Y = V0); 1 fails exists V0: (V0 = $0(V0) & Y = V0) << symbol y/1, node/2. \
    pred even_odd(Y, Xs) := Xs != Xs <-> Xs != $7. solve (even_odd(Y, Y)) | (y(y(Y)) = Y).
1 false; 2 true << symbol g/0. pred starts(X_1, SYMBOL) := SYMBOL = SYMBOL. \
    pred q := forall W: ((true) -> win(starts, 1, g)). solve exists V1: (g != g & g = g). \
    solve forall V: ~(win(starts, 1, g)).
1 open Y != finite_(Y); 1 else Y = finite_(Y); 1 holds exists V0: (V0 = $0(V0) & Y = V0); \
    1 fails exists V0: (V0 = finite_(V0) & Y = V0); 2 true << symbol f/2, h/2, finite_/1. \
    pred r(W, L) := ~(L = finite_(W)). solve finite_(Y) != Y. \
    solve exists X_1 V: (false -> win(r, 1, $7(finite_(V)))).
1 open Z = g(Z); 1 else Z != g(Z); 1 holds exists V0: (V0 = g(V0) & Z = V0); \
    1 fails exists V0: (V0 = $1(V0) & Z = V0) << symbol g/1. pred p2(L, Z) := g(g(L)) != g(L). \
    pred light(V) := ($0 = V & (V != g(V))) | ((p2(V, V)) & V = g(V)). solve ~(p2(Z, Z)).
1 false; 2 true << symbol trueish/1, g/1, z/2. pred r(X, A9b) := ~(X = X). \
    pred move(Xs, U, Y) := exists U: (finite(U)) <-> (((finite(g(U))) -> Xs != g(U))). \
    solve forall Xs V1: ~(V1 = g(Xs)). solve exists L: ~(r(L, L)).
1 false; 2 open Y != $0(Y); 2 else Y = $0(Y); 2 holds exists V0: (V0 = $1(V0) & Y = V0); \
    2 fails exists V0: (V0 = $0(V0) & Y = V0) << symbol trueish/1. pred starts(Z, W) := finite(trueish(W)). \
    solve exists V U: ((finite(V)) & win(starts, 2, V)). solve ~(trueish($0(Y)) = trueish(Y)).
1 open ~finite(X_1); 1 else finite(X_1); 1 holds exists V0 V1: (V0 = $0(V0) & V1 = $1(V1) & X_1 = V0 & Y = V1); \
    1 fails exists V0 V1: (V0 = $0 & V1 = $1(V1) & X_1 = V0 & Y = V1) << symbol b/1. \
    pred q(Xs, V1) := finite(b(Xs)). solve ~(q(X_1, Y)).
1 true; 2 false << symbol nil/0. pred edge(Xs, W) := $7 = W. pred move(X_1, A9b, V0) := ~~(win(edge, 0, A9b)). \
    solve exists U Y: (true <-> ($1(nil) != nil)). solve exists W: exists X_1: (win(edge, 1, W)).
1 true; 2 false << symbol f/1. pred p(Z, Xs) := (Xs = f(Xs) | true) -> ~(Z != $0). \
    solve exists SYMBOL: (f($2(SYMBOL)) != f(SYMBOL)). \
    solve forall SYMBOL V1: ((f(f(SYMBOL)) = V1) | win(p, 0, f(f(SYMBOL)))).
1 true; 2 open ~exists V0: Xs = s(V0, V0); 2 else exists V0: Xs = s(V0, V0); \
    2 holds exists V0: (V0 = $0(V0) & Xs = V0); 2 fails exists V0 V1: (V0 = s(V1, V1) & V1 = $0(V1) & Xs = V0) << \
    symbol s/2, y/1. pred light(V0, U) := exists V: (U = s(V, V)). solve ~false. solve ~(light(Xs, Xs)).
1 open Z = b; 1 else Z != b; 1 holds exists V0: (V0 = b & Z = V0); 1 fails exists V0: (V0 = $0(V0) & Z = V0); \
    2 false << symbol b/0. pred p2(X, Y) := (((finite(b)) | $1(b, X) = b)) & ((b != b | false)). \
    pred q(Xs) := win(p2, 0, Xs) & ~(Xs = Xs). solve forall Xs W: (b = Z). solve win(p2, 1, b).
1 true; 2 open Z = existsX(Z, Z); 2 else Z != existsX(Z, Z); 2 holds exists V0: (V0 = existsX(V0, V0) & Z = V0); \
    2 fails exists V0: (V0 = $0(V0) & Z = V0) << symbol existsX/2, b/0. pred p2(V0) := V0 = existsX(V0, V0). \
    symbol predicate/0, k/1. solve exists X: (b != $1(X) -> k(k(X)) = X). solve p2(Z).
1 false; 2 open ~finite(Xs); 2 else finite(Xs); 2 holds exists V0: (V0 = $2(V0) & Xs = V0); \
    2 fails exists V0: (V0 = $2 & Xs = V0) << symbol x/2, leaf/2. \
    pred r(A9b, L) := leaf($0(A9b, A9b), A9b) != L & x(A9b, $1(L)) = A9b. solve r(L, L) & win(r, 1, L). \
    solve finite(Xs) <-> false.
1 false; 2 true << symbol s/0, g/2, trueish/2. pred r(X_1, Y) := exists V: (finite(s)) & ((Y = s -> ($0 = Y))). \
    pred edge(L, U, X_1) := win(r, 1, X_1). solve forall V: (win(r, 2, V)). solve ~(edge(SYMBOL, SYMBOL, SYMBOL)).
1 false; 2 true << symbol symbols/0, h/2, b/0. pred q(V0, L) := false. \
    pred p2(U, L) := (((finite(L) <-> symbols = L)) & ((false) | (q(L, L)))). \
    solve forall L: ((p2(L, L)) | finite(L)). solve exists X_1: (X_1 != $7(X_1)).
1 false; 2 open U != y; 2 else U = y; 2 holds exists V0: (V0 = $0(V0) & U = V0); \
    2 fails exists V0: (V0 = y & U = V0) << symbol y/0. pred move(X, U) := U != y. \
    pred starts(W, Y) := ~(win(move, 0, Y)). solve win(starts, 1, y) & move(V, V). solve finite(U) -> move(U, U).
1 true; 2 false << symbol g/1, f/1. pred q(X, U) := ~(g(f(U)) = X). solve ~(f(V0) = g(V0)). \
    solve forall X: (q(X, X) | f($0(X, X)) = f(X)).
1 true; 2 open finite(U); 2 else ~finite(U); 2 holds exists V0 V1: (V0 = $0(V0) & V1 = $1 & X = V0 & U = V1); \
    2 fails exists V0 V1: (V0 = $0(V0) & V1 = $1(V1) & X = V0 & U = V1) << symbol z/1. pred p(W, L) := finite(z(L)). \
    solve exists L: (z(L) != z(L) <-> L != z(L)). solve p(X, U).
1 true; 2 false << symbol a/0. pred r(Z, L) := finite(a). pred p2(Z) := win(r, 1, Z). \
    solve exists Xs V1: (win(r, 2, Xs) -> p2(V1)). solve forall L Y: ((L != $1) | (p2(Y))).
1 open V1 != $1; 1 else V1 = $1; 1 holds exists V0: (V0 = $0(V0) & V1 = V0); \
    1 fails exists V0: (V0 = $1 & V1 = V0) << symbol k/1. pred q(Y, X) := ~(Y = $1). \
    pred light(V) := exists V1: (V1 != k(V1)) & (true & (finite(V))). solve exists X_1: (q(V1, X_1)).
1 true; 2 open V1 = nil(V1); 2 else V1 != nil(V1); 2 holds exists V0: (V0 = nil(V0) & V1 = V0); \
    2 fails exists V0: (V0 = $0(V0) & V1 = V0) << symbol nil/1, existsX/0. pred p(V1, X) := existsX = V1 & V1 = X. \
    solve p(SYMBOL, SYMBOL) <-> (p(SYMBOL, SYMBOL)). solve V1 != nil(V1) -> (win(p, 1, V1)).
1 open V1 = existsX; 1 else V1 != existsX; 1 holds exists V0: (V0 = existsX & V1 = V0); \
    1 fails exists V0: (V0 = $0(V0) & V1 = V0); 2 true << symbol fOO/0, existsX/0. \
    pred light(Xs, SYMBOL) := forall Y: (existsX = existsX). solve (V1 = existsX) & finite(V1). \
    solve forall W: (false | light(W, W)).
1 true << symbol leaf/2. pred winning(V, Xs) := leaf(leaf(Xs, V), $7(Xs, V)) != V. \
    pred q(SYMBOL, V1) := forall X_1: (win(winning, 1, SYMBOL)). \
    solve exists W: (win(winning, 0, leaf(W, W)) | winning(W, W)).
1 open ~finite(X); 1 else finite(X); 1 holds exists V0: (V0 = $0(V0) & X = V0); \
    1 fails exists V0: (V0 = $0 & X = V0); 2 false << symbol x/0, g/1, y/0. pred r(V) := V = g(V) -> g(y) != x. \
    solve ~(finite(X)). solve r(SYMBOL) & Y != Y.
1 open V != s; 1 else V = s; 1 holds exists V0: (V0 = $0(V0) & V = V0); 1 fails exists V0: (V0 = s & V = V0); \
    2 true << symbol s/0. pred move(U, W) := true & (U != U). solve win(move, 2, s) <-> s = V. \
    solve forall L: ~(win(move, 2, $7)).
1 open finite(L); 1 else ~finite(L); 1 holds exists V0: (V0 = $1 & L = V0); \
    1 fails exists V0: (V0 = $1(V0) & L = V0) << symbol h/2, leaf/1, symbols/1. \
    pred starts(U, Y) := finite($0(Y)) | $7 = symbols(Y). \
    pred move(Xs, A9b) := forall V0: (win(starts, 2, A9b) <-> leaf(A9b) = V0). solve starts(L, L).
1 open finite(V1); 1 else ~finite(V1); 1 holds exists V0: (V0 = $1 & V1 = V0); \
    1 fails exists V0: (V0 = $1(V0) & V1 = V0) << symbol f/0, a_B9/0, trueish/2. pred q(SYMBOL, A9b) := f != a_B9. \
    pred starts := exists W: ((q(W, W)) <-> q(W, W)). solve finite(V1) | win(q, 2, $0(f, $7)).
1 true; 2 false << symbol k/0, y/1, z/0. pred edge := ~(z = $1($2, z)). pred starts := edge. \
    pred winning(A9b, SYMBOL) := (starts) -> (k != y(SYMBOL)). \
    solve exists A9b: ($2(k, y(A9b)) = A9b & winning(A9b, A9b)). solve forall V1 U: ~starts.
1 open V0 != $7; 1 else V0 = $7; 1 holds exists V1: (V1 = $0(V1) & V0 = V1); \
    1 fails exists V1: (V1 = $7 & V0 = V1) << symbol leaf/1. pred starts(SYMBOL, V0, Y) := finite(Y) -> true. \
    solve (starts(V0, V0, V0)) & (leaf($7) != leaf(V0)).
1 open ~finite(V); 1 else finite(V); 1 holds exists V0: (V0 = $0(V0) & V = V0); \
    1 fails exists V0: (V0 = $0 & V = V0) << symbol win2/1. pred r(X_1, Y) := Y = win2(X_1). \
    pred move(V, V0) := ~exists V: (r(V, V)). solve finite(win2(V)) -> win(move, 1, win2(V)).
1 false; 2 true << symbol leaf/1. pred move(Y, Z) := Y = Y & Y != leaf(Y). pred winning(L) := L != leaf(L). \
    solve forall V: ~(V != leaf(V)). solve forall V0 X: exists V1: (win(move, 1, leaf(leaf(V1)))).
1 true; 2 false << symbol z/2. pred p(V1, X) := (z($0(X), X) != z(X, V1)) | true. solve ~(win(p, 1, $2)). \
    solve forall SYMBOL: ~(SYMBOL = SYMBOL).
1 open X_1 != x(W); 1 else X_1 = x(W); 1 holds exists V0 V1: (V0 = $0(V0) & V1 = $1(V1) & W = V0 & X_1 = V1); \
    1 fails exists V0 V1: (V0 = $0(V0) & V1 = x(V0) & W = V0 & X_1 = V1); 2 false << symbol x/1. \
    pred q(X_1, Xs) := Xs != x(X_1). solve q(W, X_1). solve q(V1, V1) & win(q, 0, V1).
1 open U != cons; 1 else U = cons; 1 holds exists V0: (V0 = $1(V0) & U = V0); \
    1 fails exists V0: (V0 = cons & U = V0) << symbol existsX/2, cons/0, node/1. \
    pred p2(X_1, X) := ~(X != X_1 | cons != X). symbol x/0, c/1. pred edge(U) := forall V: (p2(U, U) | (V != V)). \
    solve (edge(U)) -> (U = $0).
1 true << symbol s/1, existsX/2, leaf/1. pred starts(Y, L) := (existsX(Y, Y) != Y) <-> finite(L). \
    pred q(L) := (win(starts, 0, L)) | (existsX(s(L), $7(L, L)) = s(L)). solve ~(win(starts, 1, leaf(Y))).
1 false; 2 open ~finite(L); 2 else finite(L); 2 holds exists V0: (V0 = $0(V0) & L = V0); \
    2 fails exists V0: (V0 = $0 & L = V0) << symbol predicate/0, c/2, f/0. pred move(V1, X_1) := finite(c(X_1, V1)). \
    solve forall W V1: ((move(W, V1)) & c(c(V1, V1), W) = W). solve finite(L) -> (f != f).
1 true; 2 false << symbol f/1. pred move(X, X_1) := X = X_1 | X_1 = X_1. \
    pred edge(V1, V, Z) := win(move, 1, f(f(V1))). solve forall X_1 Z: (finite(Z) | (move(X_1, X_1))). \
    solve exists W L: exists Y: (win(move, 0, f(f(W)))).
1 false; 2 open W = f(W, W); 2 else W != f(W, W); 2 holds exists V0: (V0 = f(V0, V0) & W = V0); \
    2 fails exists V0: (V0 = $0(V0) & W = V0) << symbol f/2. pred p(V, A9b) := f($1(V), V) = f(V, A9b). \
    solve forall Y U: (p(Y, U) & p(Y, U)). solve (f(W, W) = W) | W != W.";

#[test]
fn random_predicates_and_moves(rt: HostRuntime) -> Result<(), Fail> {
    expect_rows(&rt, rt.alloc(), RANDOM)
}
