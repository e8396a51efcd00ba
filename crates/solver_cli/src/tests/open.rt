// Statements with free variables, and the four lines that a model in another language answers.
use super::{expect_outcome, expect_rows};
use std::test::Fail;

// The lines, `<<`, and the file.
const OPEN: &str = "\
1 open finite(X); 1 else ~finite(X); 1 holds exists V0: (V0 = $0 & X = V0); 1 fails exists V0: (V0 = $0(V0) & X = V0) << symbol f/1. solve finite(X).
1 open finite(X); 1 else ~finite(X); 1 holds exists V0 V1: (V0 = $0(V0) & V1 = $1 & Y = V0 & X = V1); 1 fails exists V0 V1: (V0 = $0(V0) & V1 = $1(V1) & Y = V0 & X = V1) << solve exists X: X = Y & finite(X).
1 open Y != X; 1 else Y = X; 1 holds exists V0 V1: (V0 = $0(V0) & V1 = $1(V1) & X = V0 & Y = V1); 1 fails exists V0: (V0 = $0(V0) & X = V0 & Y = V0) << solve X != Y.
1 open X = f(X) | exists V0: (X = f(V0) & finite(Y)); 1 else X != f(X) & ~exists V0: (X = f(V0) & finite(Y)); 1 holds exists V0 V1: (V0 = f(V0) & V1 = $0(V1) & X = V0 & Y = V1); 1 fails exists V0 V1: (V0 = $0(V0) & V1 = $1(V1) & X = V0 & Y = V1) << symbol f/1, a/0. solve X = f(X) | exists Y: X = f(Y) & finite(Y).
1 open exists V0 V1: (L = cons(V0, V1) & V0 = red); 1 else ~exists V0 V1: (L = cons(V0, V1) & V0 = red); 1 holds exists V0 V1 V2: (V0 = cons(V1, V2) & V1 = red & V2 = $0(V2) & L = V0); 1 fails exists V0: (V0 = $0(V0) & L = V0) << symbol cons/2, red/0, green/0. solve exists T: L = cons(red, T).
1 open X = red | X = green; 1 else X != red & X != green; 1 holds exists V0: (V0 = red & X = V0); 1 fails exists V0: (V0 = $0(V0) & X = V0) << symbol red/0, green/0. solve X = red | X = green.
1 open Y = a | Y = a & X = b; 1 else Y != a & ~(Y = a & X = b); 1 holds exists V0 V1: (V0 = a & V1 = $0(V1) & Y = V0 & X = V1); 1 fails exists V0 V1: (V0 = $0(V0) & V1 = $1(V1) & Y = V0 & X = V1) << symbol a/0, b/0. solve Y = a & ~(X = b & Y != a).
1 open X = a; 1 else X != a; 1 holds exists V0: (V0 = a & X = V0); 1 fails exists V0: (V0 = $0(V0) & X = V0); 2 true; 3 open Y != X; 3 else Y = X; 3 holds exists V0 V1: (V0 = $0(V0) & V1 = $1(V1) & X = V0 & Y = V1); 3 fails exists V0: (V0 = $0(V0) & X = V0 & Y = V0) << symbol a/0. solve X = a. solve true. solve X = Y -> false.
1 open X = f(X) & Y = f(Y); 1 else ~(X = f(X) & Y = f(Y)); 1 holds exists V0 V1: (V0 = f(V0) & V1 = f(V1) & X = V0 & Y = V1); 1 fails exists V0 V1: (V0 = $0(V0) & V1 = $1(V1) & X = V0 & Y = V1) << symbol f/1. solve X = f(X) & Y = f(Y).
1 open exists V0: (X = f(V0) & V0 = f(X)); 1 else ~exists V0: (X = f(V0) & V0 = f(X)); 1 holds exists V0 V1: (V0 = f(V1) & V1 = f(V0) & X = V0); 1 fails exists V0: (V0 = $0(V0) & X = V0) << symbol f/1. solve X = f(f(X)).
1 open X = $0(X) | X = $2; 1 else X != $0(X) & X != $2; 1 holds exists V0: (V0 = $0(V0) & X = V0); 1 fails exists V0: (V0 = $1(V0) & X = V0) << solve X = $0(X) | X = $2.
1 open X = f(Y) & Y = a; 1 else ~(X = f(Y) & Y = a); 1 holds exists V0 V1: (V0 = f(V1) & V1 = a & X = V0 & Y = V1); 1 fails exists V0 V1: (V0 = $0(V0) & V1 = $1(V1) & X = V0 & Y = V1) << symbol f/1, a/0. solve X = f(Y) & Y = a.
1 open exists V0: X = f(V0); 1 else ~exists V0: X = f(V0); 1 holds exists V0 V1: (V0 = f(V1) & V1 = $0(V1) & X = V0); 1 fails exists V0: (V0 = $0(V0) & X = V0) << symbol f/1. solve exists Y: X = f(Y).
1 open V0 = a; 1 else V0 != a; 1 holds exists V2 V3: (V2 = a & V3 = $0(V3) & V0 = V2 & V1 = V3); 1 fails exists V2 V3: (V2 = $0(V2) & V3 = $1(V3) & V0 = V2 & V1 = V3) << symbol a/0. solve V0 = a & exists X: X = V1.";

#[test]
fn open_statements(rt: HostRuntime) -> Result<(), Fail> {
    expect_rows(&rt, rt.alloc(), OPEN)
}

// The lines, `<<`, and the formula, with random connectives, quantifiers and terms.
const RANDOM: &str = "\
1 open ~finite(X) | exists V0: (X = f(V0) & finite(V0)); 1 else finite(X) & ~exists V0: (X = f(V0) & finite(V0)); \
    1 holds exists V0: (V0 = $0(V0) & X = V0); 1 fails exists V0: (V0 = $0 & X = V0) << \
    ((((exists Y X: (X = a)) <-> exists Y: (f(Y) = X)) | ((~(finite(X)) | (true -> X != X)))))
1 open X = Y; 1 else X != Y; 1 holds exists V0: (V0 = $0(V0) & Y = V0 & X = V0); \
    1 fails exists V0 V1: (V0 = $0(V0) & V1 = $2(V1) & Y = V0 & X = V1) << \
    (((Y = f(g(X, Y))) | (finite($1(X)) -> (Y = Y))) & (forall Z: (X = X) & (X = Y)))
1 open Y != b; 1 else Y = b; 1 holds exists V0 V1: (V0 = $0(V0) & V1 = $1(V1) & Y = V0 & X = V1); \
    1 fails exists V0 V1: (V0 = b & V1 = $0(V1) & Y = V0 & X = V1) << \
    ~(((((Y = b <-> a != a) <-> ~(b != b))) <-> (($2(f(X)) = b) & (forall Z: (Y = b)))))
1 open Y != b & ~(Y = b & finite(X)) & ~finite(X); 1 else Y = b | Y = b & finite(X) | finite(X); \
    1 holds exists V0 V1: (V0 = $0(V0) & V1 = $1(V1) & Y = V0 & X = V1); \
    1 fails exists V0 V1: (V0 = b & V1 = $0(V1) & Y = V0 & X = V1) << forall Z: (((Y = b) & (X != Z)) <-> finite(X))
1 open ~exists V0: (X = g(X, V0) & V0 = f(X)) & X != $0; 1 else exists V0: (X = g(X, V0) & V0 = f(X)) | X = $0; \
    1 holds exists V0: (V0 = $2(V0) & X = V0); 1 fails exists V0 V1: (V0 = g(V0, V1) & V1 = f(V0) & X = V0) << \
    ((~forall Y: (a = a) | (~(f(X) = $1) <-> ((g(X, f(X)) != X) & $0 != X))))
1 open Y = a; 1 else Y != a; 1 holds exists V0: (V0 = a & Y = V0); 1 fails exists V0: (V0 = $1(V0) & Y = V0) << \
    exists Z: forall U: ((Y = a) & (Z = $0))
1 open exists V0: (X = f(V0) & V0 = g(X, X)); 1 else ~exists V0: (X = f(V0) & V0 = g(X, X)); \
    1 holds exists V0 V1: (V0 = f(V1) & V1 = g(V0, V0) & X = V0); 1 fails exists V0: (V0 = $0(V0) & X = V0) << \
    ((X = f(g(X, X))) <-> forall Y: exists Z: (Z = Z))
1 open ~exists V0: (Y = f(V0) & V0 = g(X, Y)); 1 else exists V0: (Y = f(V0) & V0 = g(X, Y)); \
    1 holds exists V0 V1: (V0 = $0(V0) & V1 = $1(V1) & Y = V0 & X = V1); \
    1 fails exists V0 V1 V2: (V0 = f(V2) & V1 = $0(V1) & V2 = g(V1, V0) & Y = V0 & X = V1) << \
    ((Y = f(g(X, Y))) -> forall Z: forall U: forall V: (Y != f(Z)))
1 open exists V0: (X = f(V0) & V0 = b); 1 else ~exists V0: (X = f(V0) & V0 = b); \
    1 holds exists V0 V1: (V0 = f(V1) & V1 = b & X = V0); 1 fails exists V0: (V0 = $0(V0) & X = V0) << \
    (exists Y: forall Z: (finite(a) -> (X = Y)) & (X = f(b)))
1 open ~finite(X) | X = a; 1 else finite(X) & X != a; 1 holds exists V0: (V0 = $0(V0) & X = V0); \
    1 fails exists V0: (V0 = $0 & X = V0) << (exists Z: exists U: finite(X) <-> exists Z: ((X = a) & (X = Z)))
1 open X = b | X = b & Y = $2; 1 else X != b & ~(X = b & Y = $2); \
    1 holds exists V0 V1: (V0 = b & V1 = $0(V1) & X = V0 & Y = V1); \
    1 fails exists V0 V1: (V0 = $0(V0) & V1 = $1(V1) & X = V0 & Y = V1) << \
    ((forall Z: ((forall U: (b != X) -> (($2 = Y <-> Z = b)))) & (exists V: (finite(b)))))
1 open X != g(X, X); 1 else X = g(X, X); 1 holds exists V0: (V0 = $0(V0) & X = V0); \
    1 fails exists V0: (V0 = g(V0, V0) & X = V0) << \
    forall Y: exists Z: (forall U: (X = g(Z, Z)) <-> ((Z = X) <-> (X != X)))
1 open finite(X); 1 else ~finite(X); 1 holds exists V0: (V0 = $1 & X = V0); \
    1 fails exists V0: (V0 = $1(V0) & X = V0) << \
    forall Y: ((($0(a, X) = X & (a = g(Y, Y)))) | ((X = Y -> finite(f(Y)))))
1 open ~finite(X); 1 else finite(X); 1 holds exists V0: (V0 = $0(V0) & X = V0); \
    1 fails exists V0: (V0 = $0 & X = V0) << \
    (exists Y: (finite($1(X)) & (Y != X)) -> forall Y: (finite(X) & finite(Y)))
1 open ~exists V0: X = g(V0, Y); 1 else exists V0: X = g(V0, Y); \
    1 holds exists V0 V1: (V0 = $0(V0) & V1 = $1(V1) & X = V0 & Y = V1); \
    1 fails exists V0 V1 V2: (V0 = g(V2, V1) & V1 = $0(V1) & V2 = $1(V2) & X = V0 & Y = V1) << \
    forall Z: ~(X = g(Z, Y) | (f(X) = a))
1 open X = b; 1 else X != b; 1 holds exists V0: (V0 = b & X = V0); 1 fails exists V0: (V0 = $1(V0) & X = V0) << \
    ((((true | X = a) <-> exists Y: (f(g(Y, X)) != f(Y))) <-> ((b = X) & ~($0(X, X) = f(X)))))
1 open X = b; 1 else X != b; 1 holds exists V0: (V0 = b & X = V0); 1 fails exists V0: (V0 = $0(V0) & X = V0) << \
    ((true | forall Y: (Y = a)) -> (b = X))
1 open X != $0 & Y != X; 1 else X = $0 | Y = X; 1 holds exists V0 V1: (V0 = $1(V0) & V1 = $2(V1) & X = V0 & Y = V1); \
    1 fails exists V0 V1: (V0 = $0 & V1 = $1(V1) & X = V0 & Y = V1) << \
    (((finite(X) & (X = $0)) | forall Z: (X = Y)) <-> ~exists Z: (Y = Z))
1 open finite(Y); 1 else ~finite(Y); 1 holds exists V0 V1: (V0 = $0(V0) & V1 = $1 & X = V0 & Y = V1); \
    1 fails exists V0 V1: (V0 = $0(V0) & V1 = $1(V1) & X = V0 & Y = V1) << \
    forall Z: (exists U: (X = U) & forall U: finite(Y))
1 open exists V0: (Y = f(V0) & V0 = b); 1 else ~exists V0: (Y = f(V0) & V0 = b); \
    1 holds exists V0 V1: (V0 = f(V1) & V1 = b & Y = V0); 1 fails exists V0: (V0 = $0(V0) & Y = V0) << \
    exists Z: ((Y = f(b)) & exists U: (Y = f(U)))
1 open exists V0 V1: (Y = g(V0, V1) & V0 = a & V1 = g(X, X)); \
    1 else ~exists V0 V1: (Y = g(V0, V1) & V0 = a & V1 = g(X, X)); \
    1 holds exists V0 V1 V2 V3: (V0 = $0(V0) & V1 = g(V2, V3) & V2 = a & V3 = g(V0, V0) & X = V0 & Y = V1); \
    1 fails exists V0 V1: (V0 = $0(V0) & V1 = $1(V1) & X = V0 & Y = V1) << \
    forall Z: (exists U: ((U = Z) & (X = Z)) | forall U: ~(Y != g(a, g(X, X))))
1 open ~exists V0 V1 V2: (X = g(V0, V1) & V0 = b & V1 = f(V2)); \
    1 else exists V0 V1 V2: (X = g(V0, V1) & V0 = b & V1 = f(V2)); 1 holds exists V0: (V0 = $0(V0) & X = V0); \
    1 fails exists V0 V1 V2 V3: (V0 = g(V1, V2) & V1 = b & V2 = f(V3) & V3 = $0(V3) & X = V0) << \
    ~((($2 = a & (X = g(X, X)))) | exists Y: (g(b, f(Y)) = X))
1 open X != Y & Y != $0; 1 else X = Y | Y = $0; 1 holds exists V0 V1: (V0 = $1(V0) & V1 = $2(V1) & Y = V0 & X = V1); \
    1 fails exists V0: (V0 = $1(V0) & Y = V0 & X = V0) << \
    (exists Z: ~forall U: finite($0) <-> exists Z: (~(Y != X) | exists U: (Y = $0)))
1 open exists V0 V1: X = g(V0, V1) | X = f(X); 1 else ~exists V0 V1: X = g(V0, V1) & X != f(X); \
    1 holds exists V0 V1 V2 V3: (V0 = g(V2, V3) & V1 = $0(V1) & V2 = $1(V2) & V3 = $2(V3) & X = V0 & Y = V1); \
    1 fails exists V0 V1: (V0 = $0(V0) & V1 = $1(V1) & X = V0 & Y = V1) << \
    ((X = f(X) | (Y != Y)) <-> ((forall Z U: (X != g(U, Z))) | ((X != a -> b = g(X, Y)))))
1 open Y = a; 1 else Y != a; 1 holds exists V0: (V0 = a & Y = V0); 1 fails exists V0: (V0 = $0(V0) & Y = V0) << \
    forall Z: (exists U: ((Z != $1(U)) & (Y = U)) | (Y = a))
1 open ~finite(Y) | finite(Y) & X = $0; 1 else finite(Y) & X != $0; \
    1 holds exists V0 V1: (V0 = $1(V0) & V1 = $2(V1) & Y = V0 & X = V1); \
    1 fails exists V0 V1: (V0 = $1 & V1 = $2(V1) & Y = V0 & X = V1) << \
    forall Z: ((finite(Y) & (Y = Y)) -> forall U: (X = $0))
1 open finite(X); 1 else ~finite(X); 1 holds exists V0: (V0 = $0 & X = V0); \
    1 fails exists V0: (V0 = $0(V0) & X = V0) << exists Y: ~(exists Z: finite(X) -> ~finite(Y))
1 open Y != $1 | Y = $1 & finite(X) | Y = $1 & X = Y; 1 else Y = $1 & ~finite(X) & X != Y; \
    1 holds exists V0 V1: (V0 = $0(V0) & V1 = $2(V1) & Y = V0 & X = V1); \
    1 fails exists V0 V1: (V0 = $1 & V1 = $0(V1) & Y = V0 & X = V1) << \
    ((~forall Z U: (Y != $1) -> (((a = b <-> (f(g(X, X)) = b)) & (finite(X) | X = $1)))))
1 open finite(X) | Y = f(Y); 1 else ~finite(X) & Y != f(Y); \
    1 holds exists V0 V1: (V0 = $0 & V1 = $1(V1) & X = V0 & Y = V1); \
    1 fails exists V0 V1: (V0 = $0(V0) & V1 = $1(V1) & X = V0 & Y = V1) << \
    ((finite(X) | exists Z: (Y = f(Y))) | forall Z: (Z != X))
1 open Y = $7(V0, Y) | Y = f(Y) & V0 = Y; 1 else Y != $7(V0, Y) & ~(Y = f(Y) & V0 = Y); \
    1 holds exists V1 V2: (V1 = $7(V2, V1) & V2 = $0(V2) & Y = V1 & V0 = V2); \
    1 fails exists V1 V2: (V1 = $0(V1) & V2 = $1(V2) & Y = V1 & V0 = V2) << \
    ~~(Y = $7(V0, Y)) | ((V0 = f(V0)) & V0 = Y)
1 open ~exists V0: (Xs = $7(V0) & V0 = a) & ~finite(Xs); 1 else exists V0: (Xs = $7(V0) & V0 = a) | finite(Xs); \
    1 holds exists V0: (V0 = $0(V0) & Xs = V0); 1 fails exists V0 V1: (V0 = $7(V1) & V1 = a & Xs = V0) << \
    (exists L V: ($7(a) != Xs)) & ((finite(g(Xs, Xs)) -> (g(g(Xs, Xs), Xs) = Xs)))
1 open Y != a & ~finite(V0); 1 else Y = a | finite(V0); \
    1 holds exists V1 V2: (V1 = $1(V1) & V2 = $2(V2) & Y = V1 & V0 = V2); \
    1 fails exists V1 V2: (V1 = a & V2 = $1(V2) & Y = V1 & V0 = V2) << ~~(a != Y) & (exists X_1: ~(finite($0(V0))))
1 open W = X & X != Xs; 1 else W != X | X = Xs & W = Xs; \
    1 holds exists V0 V1: (V0 = $0(V0) & V1 = $1(V1) & Xs = V0 & X = V1 & W = V1); \
    1 fails exists V0 V1 V2: (V0 = $0(V0) & V1 = $1(V1) & V2 = $2(V2) & Xs = V0 & X = V1 & W = V2) << \
    exists X W: ~(finite(g(W, Xs))) <-> ((X != Xs) & X = W)
1 open ~exists V0: (X = g(V0, X) & V0 = $0) & ~finite(X); 1 else exists V0: (X = g(V0, X) & V0 = $0) | finite(X); \
    1 holds exists V0: (V0 = $1(V0) & X = V0); 1 fails exists V0 V1: (V0 = g(V1, V0) & V1 = $0 & X = V0) << \
    (g($0, X) != X -> finite(g(X, X))) -> (forall L A9b: (L = f(X)))
1 open U != W | W = f(W) & U = W; 1 else U = W & W != f(W); \
    1 holds exists V0 V1: (V0 = $0(V0) & V1 = $1(V1) & W = V0 & U = V1); \
    1 fails exists V0: (V0 = $0(V0) & W = V0 & U = V0) << \
    ((~(W != f(W)) | ((U = W <-> (b = a)))) & exists V0 Z: forall Xs: (b != g(V0, Xs)))
1 open exists V1: (V0 = f(V1) & V1 = g(V0, V0)); 1 else ~exists V1: (V0 = f(V1) & V1 = g(V0, V0)); \
    1 holds exists V1 V2: (V1 = f(V2) & V2 = g(V1, V1) & V0 = V1); 1 fails exists V1: (V1 = $1(V1) & V0 = V1) << \
    (~~(V0 = V0) & ((($0 = $2 -> ($7(a) = b)) <-> ~(f(g(V0, V0)) != V0))))
1 open ~exists V0: (A9b = $0(V0) & V0 = b) & ~finite(Z); 1 else exists V0: (A9b = $0(V0) & V0 = b) | finite(Z); \
    1 holds exists V0 V1: (V0 = $1(V0) & V1 = $2(V1) & A9b = V0 & Z = V1); \
    1 fails exists V0 V1 V2: (V0 = $0(V2) & V1 = $1(V1) & V2 = b & A9b = V0 & Z = V1) << \
    ~($0(b) = A9b | finite(f(Z)))
1 open V = g(Xs, V) | finite(V); 1 else V != g(Xs, V) & ~finite(V); \
    1 holds exists V0 V1: (V0 = g(V1, V0) & V1 = $0(V1) & V = V0 & Xs = V1); \
    1 fails exists V0 V1: (V0 = $0(V0) & V1 = $1(V1) & V = V0 & Xs = V1) << \
    exists Xs: forall V1: (f(g(Xs, V)) != V) & ((V = g(Xs, V) | (finite(V))))
1 open V0 != a | Xs = a & V0 = Xs; 1 else V0 = a & Xs != V0; \
    1 holds exists V1 V2: (V1 = $0(V1) & V2 = $2(V2) & Xs = V1 & V0 = V2); \
    1 fails exists V1 V2: (V1 = $0(V1) & V2 = a & Xs = V1 & V0 = V2) << \
    ((~(Xs != V0)) | ~(V0 = a)) <-> ((~(V0 = f(V0))) | ~(finite($1(V0))))
1 open ~exists V0: (X = g(V0, X) & V0 = a) & ~finite(X); 1 else exists V0: (X = g(V0, X) & V0 = a) | finite(X); \
    1 holds exists V0: (V0 = $0(V0) & X = V0); 1 fails exists V0 V1: (V0 = g(V1, V0) & V1 = a & X = V0) << \
    (g(a, X) = X) <-> ~~(finite(X))
1 open A9b = g(Y, W); 1 else A9b != g(Y, W); \
    1 holds exists V0 V1 V2: (V0 = g(V1, V2) & V1 = $0(V1) & V2 = $1(V2) & A9b = V0 & Y = V1 & W = V2); \
    1 fails exists V0 V1 V2: (V0 = $0(V0) & V1 = $1(V1) & V2 = $2(V2) & A9b = V0 & Y = V1 & W = V2) << \
    forall Y W: ~(finite(W)) <-> ~(A9b = g(Y, W))
1 open ~finite(Z) & Z != f(Z) | exists V0: (Z = f(V0) & V0 = a); \
    1 else finite(Z) & ~exists V0: (Z = f(V0) & V0 = a) | Z = f(Z); 1 holds exists V0: (V0 = $0(V0) & Z = V0); \
    1 fails exists V0: (V0 = $0 & Z = V0) << \
    ((forall U: (finite(Z) <-> f(a) = Z)) & (($1(b) = $1(Z, Z)) | (~(Z = f(Z)))))
1 open ~exists V0: (L = g(V0, L) & V0 = a); 1 else exists V0: (L = g(V0, L) & V0 = a); \
    1 holds exists V0: (V0 = $1(V0) & L = V0); 1 fails exists V0 V1: (V0 = g(V1, V0) & V1 = a & L = V0) << \
    ((forall L: (finite(L) | (b = $0(L)))) <-> ((exists V0: (g(a, L) = L)) <-> ~(a = b)))
1 open ~(X = a & X_1 = X) & ~finite(X_1); 1 else X = a & X_1 = X | finite(X_1); \
    1 holds exists V0 V1: (V0 = $1(V0) & V1 = $2(V1) & X = V0 & X_1 = V1); \
    1 fails exists V0: (V0 = a & X = V0 & X_1 = V0) << \
    (exists W: (g(f(X), X_1) = $0 & W = W)) | ~(g(a, a) != g(X_1, X) -> (finite(f(X_1))))
1 open ~finite(V1) | V1 = $7; 1 else finite(V1) & V1 != $7; 1 holds exists V0: (V0 = $0(V0) & V1 = V0); \
    1 fails exists V0: (V0 = $0 & V1 = V0) << \
    (((exists W: (W != V1) | ~(finite(V1)))) & exists X_1: (($7 = V1) <-> finite(V1)))
1 open L = g(L, L) | finite(L) & L != b; 1 else L != g(L, L) & ~finite(L) | L = b; \
    1 holds exists V0: (V0 = g(V0, V0) & L = V0); 1 fails exists V0: (V0 = $0(V0) & L = V0) << \
    (~(f(g(L, L)) = f(L)) & ((b = L -> b != L))) <-> ~~(finite(f(L)))
1 open V != $2(V0); 1 else V = $2(V0); 1 holds exists V1 V2: (V1 = $0(V1) & V2 = $1(V2) & V0 = V1 & V = V2); \
    1 fails exists V1 V2: (V1 = $0(V1) & V2 = $2(V1) & V0 = V1 & V = V2) << \
    ((forall V0: forall L: (f(g(L, L)) = g(L, V0))) | exists W: (($2(V0) = V) <-> a = b))
1 open ~finite(W) & ~exists V0: (W = $2(V0, W) & V0 = a); 1 else finite(W) | exists V0: (W = $2(V0, W) & V0 = a); \
    1 holds exists V0: (V0 = $0(V0) & W = V0); 1 fails exists V0: (V0 = $0 & W = V0) << \
    ((finite(a) <-> $2 != b) & (((finite(W)) <-> $2(a, W) = W)))
1 open finite(V0) | exists V1: (V0 = g(V1, V0) & V1 = b); \
    1 else ~finite(V0) & ~exists V1: (V0 = g(V1, V0) & V1 = b); 1 holds exists V1: (V1 = $0 & V0 = V1); \
    1 fails exists V1: (V1 = $0(V1) & V0 = V1) << \
    (g(b, V0) = V0 <-> (((finite(V0) <-> b = f(V0)) | forall Xs Y: ($1(g(Y, Y)) = Xs))))
1 open ~exists V0: (U = f(V0) & V0 = $2) & U != a; 1 else exists V0: (U = f(V0) & V0 = $2) | U = a; \
    1 holds exists V0: (V0 = $0(V0) & U = V0); 1 fails exists V0 V1: (V0 = f(V1) & V1 = $2 & U = V0) << \
    ~exists Y: (U = a) <-> forall V0 V: (f($2) != U | U = f(V))
1 open V0 = $0 | finite(Xs); 1 else V0 != $0 & ~finite(Xs); \
    1 holds exists V1 V2: (V1 = $0 & V2 = $1(V2) & V0 = V1 & Xs = V2); \
    1 fails exists V1 V2: (V1 = $1(V1) & V2 = $2(V2) & V0 = V1 & Xs = V2) << \
    exists Xs V: forall L: (b != g(L, V0)) -> (($0 = V0 | (finite(Xs))))
1 open Z != a | exists V0: (Z = a & V1 = g(V0, V1) & V0 = f(Z)); \
    1 else Z = a & ~exists V0: (V1 = g(V0, V1) & V0 = f(Z)); \
    1 holds exists V0 V2: (V0 = $0(V0) & V2 = $1(V2) & Z = V0 & V1 = V2); \
    1 fails exists V0 V2: (V0 = a & V2 = $0(V2) & Z = V0 & V1 = V2) << ~(a = Z & g(f(Z), V1) != V1)
1 open U != a & Y != W; 1 else U = a | Y = W; \
    1 holds exists V0 V1 V2: (V0 = $0(V0) & V1 = $1(V1) & V2 = $2(V2) & U = V0 & W = V1 & Y = V2); \
    1 fails exists V0 V1 V2: (V0 = a & V1 = $0(V1) & V2 = $1(V2) & U = V0 & W = V1 & Y = V2) << \
    forall Y: forall U: true -> (a != U & W != Y)
1 open ~exists V0: (Xs = f(V0) & V0 = $0(Xs)) & ~finite(Xs); \
    1 else exists V0: (Xs = f(V0) & V0 = $0(Xs)) | finite(Xs); 1 holds exists V0: (V0 = $1(V0) & Xs = V0); \
    1 fails exists V0 V1: (V0 = f(V1) & V1 = $0(V0) & Xs = V0) << ~(f($0(Xs)) = Xs | (finite(Xs)))
1 open ~exists V0: Z = f(V0); 1 else exists V0: Z = f(V0); 1 holds exists V0: (V0 = $1(V0) & Z = V0); \
    1 fails exists V0 V1: (V0 = f(V1) & V1 = $1(V1) & Z = V0) << \
    (exists A9b V0: (f(f(A9b)) != f(Z) <-> ($0(b) = a)) -> (forall U: true & ((a = Z) & (Z != Z))))
1 open finite(W) & W != A9b | W = A9b & ~finite(A9b); 1 else ~finite(W) & W != A9b | finite(A9b) & W = A9b; \
    1 holds exists V0 V1: (V0 = $1(V0) & V1 = $2 & A9b = V0 & W = V1); \
    1 fails exists V0 V1: (V0 = $1(V0) & V1 = $2(V1) & A9b = V0 & W = V1) << ~(A9b != W) <-> (~(finite($0(W))))
1 open ~finite(Xs) | exists V0: (finite(Xs) & Z = $2(V0)); 1 else finite(Xs) & ~exists V0: Z = $2(V0); \
    1 holds exists V0 V1: (V0 = $0(V0) & V1 = $1(V1) & Xs = V0 & Z = V1); \
    1 fails exists V0 V1: (V0 = $0 & V1 = $1(V1) & Xs = V0 & Z = V1) << exists L: ((finite(f(Xs))) -> ($2(L) = Z))
1 open V0 != $2(V0, L) | L = a & V0 = $2(V0, L); 1 else V0 = $2(V0, L) & L != a; \
    1 holds exists V1 V2: (V1 = $0(V1) & V2 = $1(V2) & L = V1 & V0 = V2); \
    1 fails exists V1 V2: (V1 = $0(V1) & V2 = $2(V2, V1) & L = V1 & V0 = V2) << \
    exists U: forall U: (a = L) | (exists X: ~(f($2(V0, L)) = f(V0)))
1 open V1 = f(V1) | exists V0: (V1 = g(V0, V0) & V0 = a); \
    1 else V1 != f(V1) & ~exists V0: (V1 = g(V0, V0) & V0 = a); 1 holds exists V0: (V0 = f(V0) & V1 = V0); \
    1 fails exists V0: (V0 = $0(V0) & V1 = V0) << ~~(f(V1) = V1) | ((exists Z: (V1 = V1)) -> (g(a, a) = V1))
1 open ~exists V0: (V1 = f(V0) & V0 = g(V1, V1)); 1 else exists V0: (V1 = f(V0) & V0 = g(V1, V1)); \
    1 holds exists V0: (V0 = $1(V0) & V1 = V0); 1 fails exists V0 V2: (V0 = f(V2) & V2 = g(V0, V0) & V1 = V0) << \
    (((((V1 != V1) <-> $0(V1) = $0)) -> ((finite($0)) | (b = V1))) & ~(f(g(V1, V1)) = V1))
1 open ~finite(Y) & Y != $1; 1 else finite(Y) | Y = $1; 1 holds exists V0: (V0 = $3(V0) & Y = V0); \
    1 fails exists V0: (V0 = $3 & Y = V0) << \
    ((~(finite($2(Y, Y)))) & ((((($1 = Y) <-> ($0 = $1(Y)))) | f(f(Y)) = Y)))
1 open U != V0 | V0 = a & U = V0; 1 else U = V0 & V0 != a; \
    1 holds exists V1 V2: (V1 = $0(V1) & V2 = $1(V2) & V0 = V1 & U = V2); \
    1 fails exists V1: (V1 = $0(V1) & V0 = V1 & U = V1) << \
    forall W: ~(f(g(V0, U)) = a) <-> (exists Xs: ((a = U) | (U != V0)))
1 open W = g(W, W) | exists V0: (W = $7(V0, W) & V0 = a) | finite(W); \
    1 else W != g(W, W) & ~exists V0: (W = $7(V0, W) & V0 = a) & ~finite(W); \
    1 holds exists V0: (V0 = g(V0, V0) & W = V0); 1 fails exists V0: (V0 = $1(V0) & W = V0) << \
    ($0 = b | g(W, g(W, W)) = g(W, W)) | ($7(a, W) = W | finite(W))
1 open ~exists V0: (L = f(V0) & V0 = $2); 1 else exists V0: (L = f(V0) & V0 = $2); \
    1 holds exists V0: (V0 = $0(V0) & L = V0); 1 fails exists V0 V1: (V0 = f(V1) & V1 = $2 & L = V0) << \
    (((forall A9b Y: (g(b, Y) = $1(L))) | (finite(a)))) & (exists V1: ~(f($2) = L))
1 open ~finite(Z) & Z != g(Z, Z) & Z != b; 1 else finite(Z) | Z = g(Z, Z) | Z = b; \
    1 holds exists V0: (V0 = $0(V0) & Z = V0); 1 fails exists V0: (V0 = $0 & Z = V0) << \
    (((~(finite(g(Z, Z))) -> ((Z = b) <-> f(g(Z, Z)) != f(Z)))) -> ~((Z = a) | Z = Z))
1 open exists V0: (L = g(L, V0) & V0 = $0); 1 else ~exists V0: (L = g(L, V0) & V0 = $0); \
    1 holds exists V0 V1: (V0 = g(V0, V1) & V1 = $0 & L = V0); 1 fails exists V0: (V0 = $1(V0) & L = V0) << \
    ((($2(L, L) = $2 <-> g(L, $0) = L) -> ((L != L) & L = g(L, L))) & ~exists A9b: (L = b))
1 open L != $7 & ~finite(Y); 1 else L = $7 | finite(Y); \
    1 holds exists V0 V1: (V0 = $0(V0) & V1 = $1(V1) & L = V0 & Y = V1); \
    1 fails exists V0 V1: (V0 = $7 & V1 = $0(V1) & L = V0 & Y = V1) << \
    L != $7 & forall V1 V1: (finite(Y) -> a = f(V1))
1 open L != g(Y, L) | L = g(Y, L) & finite(Y); 1 else L = g(Y, L) & ~finite(Y); \
    1 holds exists V0 V1: (V0 = $0(V0) & V1 = $1(V1) & L = V0 & Y = V1); \
    1 fails exists V0 V1: (V0 = g(V1, V0) & V1 = $0(V1) & L = V0 & Y = V1) << \
    ~~(L != g(Y, L)) | exists W: (finite(Y))
1 open ~finite(U) & ~exists V0: (U = $0(V0, U) & V0 = g(U, U)); \
    1 else finite(U) | exists V0: (U = $0(V0, U) & V0 = g(U, U)); 1 holds exists V0: (V0 = $1(V0) & U = V0); \
    1 fails exists V0: (V0 = $1 & U = V0) << (finite(f(U))) <-> $0(g(U, U), U) = U
1 open Z = g(Z, Z) | exists V0: (Z = g(V0, Z) & V0 = f(Z)); \
    1 else Z != g(Z, Z) & ~exists V0: (Z = g(V0, Z) & V0 = f(Z)); 1 holds exists V0: (V0 = g(V0, V0) & Z = V0); \
    1 fails exists V0: (V0 = $0(V0) & Z = V0) << \
    exists X_1 SYMBOL: (g(Z, Z) = Z) | ((g(f(Z), Z) != Z -> (forall Y: (a = Y))))
1 open V1 != V & ~finite(V1) | finite(V) & V1 = V; 1 else V1 = V & ~finite(V) | finite(V1) & V1 != V; \
    1 holds exists V0 V2: (V0 = $0(V0) & V2 = $1(V2) & V = V0 & V1 = V2); \
    1 fails exists V0: (V0 = $0(V0) & V = V0 & V1 = V0) << \
    (V = V1 & f($7(V1)) != g(V1, V1)) <-> (((finite(V1)) & (finite(V1))))
1 open V1 != $2 & ~exists V0: (V1 = $1(V0, V1) & V0 = f(V1)); \
    1 else V1 = $2 | exists V0: (V1 = $1(V0, V1) & V0 = f(V1)); 1 holds exists V0: (V0 = $0(V0) & V1 = V0); \
    1 fails exists V0: (V0 = $2 & V1 = V0) << ~~($2 != V1 & ($1(f(V1), V1) != V1))
1 open W = g(W, W) | finite(W) & W != a; 1 else W != g(W, W) & ~finite(W) | W = a; \
    1 holds exists V0: (V0 = g(V0, V0) & W = V0); 1 fails exists V0: (V0 = $0(V0) & W = V0) << \
    (((finite(W) <-> ((W != a & W != g(W, W))))) | (~exists U: (g(W, f(W)) != b)))
1 open ~finite(V1) & ~finite(Xs); 1 else finite(V1) | finite(Xs); \
    1 holds exists V0 V2: (V0 = $1(V0) & V2 = $2(V2) & V1 = V0 & Xs = V2); \
    1 fails exists V0 V2: (V0 = $1 & V2 = $2(V2) & V1 = V0 & Xs = V2) << \
    exists V1: exists W W: (g(b, W) = $0) <-> ((finite(f(V1)) | (finite(Xs))))
1 open exists V0 V1: (U = $7(V0, V1) & V0 = a & V1 = $1); 1 else ~exists V0 V1: (U = $7(V0, V1) & V0 = a & V1 = $1); \
    1 holds exists V0 V1 V2: (V0 = $7(V1, V2) & V1 = a & V2 = $1 & U = V0); \
    1 fails exists V0: (V0 = $0(V0) & U = V0) << ~~(finite(U)) & (forall U: (finite(U)) | ~($7(a, $1) != U))
1 open W != b | W = b & Z = $2; 1 else W = b & Z != $2; \
    1 holds exists V0 V1: (V0 = $0(V0) & V1 = $1(V1) & W = V0 & Z = V1); \
    1 fails exists V0 V1: (V0 = b & V1 = $0(V1) & W = V0 & Z = V1) << \
    (((f(f(W)) != b) <-> (g(a, f(Z)) != W & (Z = $2))) | (W = b -> (~(b = W))))
1 open ~finite(V1) | V1 = b; 1 else finite(V1) & V1 != b; 1 holds exists V0: (V0 = $0(V0) & V1 = V0); \
    1 fails exists V0: (V0 = $0 & V1 = V0) << \
    ((((finite(V1) <-> V1 = V1)) -> forall Z: (b = V1)) & forall Y: ((Y = Y) | Y = $7(V1, V1)))
1 open exists V0: (V1 = g(V0, V0) & V0 = a); 1 else ~exists V0: (V1 = g(V0, V0) & V0 = a); \
    1 holds exists V0 V2: (V0 = g(V2, V2) & V2 = a & V1 = V0); 1 fails exists V0: (V0 = $0(V0) & V1 = V0) << \
    ((~(V1 = V1) & (f(g(V1, V1)) != g(V1, V1) <-> (V1 != f(V1)))) | forall Y: exists U: (g(a, a) = V1))
1 open ~exists V0: (Z = g(V0, Z) & V0 = $2); 1 else exists V0: (Z = g(V0, Z) & V0 = $2); \
    1 holds exists V0: (V0 = $0(V0) & Z = V0); 1 fails exists V0 V1: (V0 = g(V1, V0) & V1 = $2 & Z = V0) << \
    (((b != a) -> (g($2, Z) != Z)) | finite(Z)) | ((forall X: (a = Z)) | (~(Z != $1(Z))))
1 open ~finite(A9b) & ~exists V0 V1: (A9b = g(V0, V1) & V1 = $1); \
    1 else finite(A9b) | exists V0 V1: (A9b = g(V0, V1) & V1 = $1); 1 holds exists V0: (V0 = $0(V0) & A9b = V0); \
    1 fails exists V0: (V0 = $0 & A9b = V0) << forall Xs: (finite(g(Xs, A9b)) <-> g(Xs, $1) = A9b)
1 open finite(L) | L = g(L, L); 1 else ~finite(L) & L != g(L, L); 1 holds exists V0: (V0 = $0 & L = V0); \
    1 fails exists V0: (V0 = $0(V0) & L = V0) << \
    ((exists Z: (Z != b) <-> ((finite($2(L))) | L != L)) | ~(g(g(L, L), a) = L | L != g(L, L)))
1 open U != f(V0) & U != a; 1 else U = f(V0) | U = a; \
    1 holds exists V1 V2: (V1 = $1(V1) & V2 = $2(V2) & V0 = V1 & U = V2); \
    1 fails exists V1 V2: (V1 = $1(V1) & V2 = f(V1) & V0 = V1 & U = V2) << \
    (~(f($0(V0)) = a) & forall A9b: (g(f(V0), U) = a)) | (~((U != f(V0)) -> (U = a)))
1 open ~finite(V1) | V1 = $1; 1 else finite(V1) & V1 != $1; 1 holds exists V0: (V0 = $0(V0) & V1 = V0); \
    1 fails exists V0: (V0 = $0 & V1 = V0) << ~(V1 = $1) -> ~(finite(V1))
1 open Y = a | exists V0: (Y = g(Y, V0) & V0 = g(Y, Y)); 1 else Y != a & ~exists V0: (Y = g(Y, V0) & V0 = g(Y, Y)); \
    1 holds exists V0: (V0 = a & Y = V0); 1 fails exists V0: (V0 = $2(V0) & Y = V0) << \
    (((Y = a -> $7 = a) | ($1($0(Y)) = b)) <-> ((g(Y, g(Y, Y)) = Y) <-> exists U: (Y = U)))
1 open finite(SYMBOL) & L != b; 1 else ~finite(SYMBOL) | finite(SYMBOL) & L = b; \
    1 holds exists V0 V1: (V0 = $1 & V1 = $2(V1) & SYMBOL = V0 & L = V1); \
    1 fails exists V0 V1: (V0 = $1(V0) & V1 = $2(V1) & SYMBOL = V0 & L = V1) << \
    forall V: (finite($0(SYMBOL))) & exists V0: (b != L)
1 open Y != $0; 1 else Y = $0; 1 holds exists V0: (V0 = $1(V0) & Y = V0); 1 fails exists V0: (V0 = $0 & Y = V0) << \
    (forall V1: (g(f(Y), Y) = a) -> exists V: (f(a) = V)) & ((a = Y -> true) -> ~(Y = $0))
1 open ~finite(A9b) | exists V0: (A9b = $2(V0) & V0 = $2); \
    1 else finite(A9b) & ~exists V0: (A9b = $2(V0) & V0 = $2); 1 holds exists V0: (V0 = $0(V0) & A9b = V0); \
    1 fails exists V0: (V0 = $0 & A9b = V0) << \
    ~(((g(A9b, $2(A9b, A9b)) = g(A9b, A9b) <-> $2($2) = A9b) & (finite(A9b))))
1 open ~(V1 = $1 & Y = V1); 1 else V1 = $1 & Y = V1; \
    1 holds exists V0 V2: (V0 = $0(V0) & V2 = $2(V2) & V1 = V0 & Y = V2); \
    1 fails exists V0: (V0 = $1 & V1 = V0 & Y = V0) << \
    (((~(f(V1) = f(Y))) -> (finite(b) <-> V1 = Y)) -> forall Xs: exists W: (V1 != $1))
1 open Xs != g(Xs, Xs) & Xs != $0(Xs) & ~finite(Xs) | Xs = b; \
    1 else Xs = g(Xs, Xs) | Xs = $0(Xs) | finite(Xs) & Xs != b; 1 holds exists V0: (V0 = $1(V0) & Xs = V0); \
    1 fails exists V0: (V0 = g(V0, V0) & Xs = V0) << \
    ((~(Xs != $0(Xs)) <-> (b != Xs & Xs != g(Xs, Xs))) <-> finite(f(Xs)))
1 open V1 != b & ~finite(X); 1 else V1 = b | finite(X); \
    1 holds exists V0 V2: (V0 = $0(V0) & V2 = $1(V2) & V1 = V0 & X = V2); \
    1 fails exists V0 V2: (V0 = b & V2 = $0(V2) & V1 = V0 & X = V2) << \
    ((((V1 != b) | a = $2(V1))) & (((finite(X)) <-> b = a)))
1 open ~exists V0: L = g(L, V0); 1 else exists V0: L = g(L, V0); 1 holds exists V0: (V0 = $0(V0) & L = V0); \
    1 fails exists V0 V1: (V0 = g(V0, V1) & V1 = $0(V1) & L = V0) << \
    forall Y X: ~(g(g(L, X), L) = g(L, Y)) <-> (exists X_1: (finite(a)) | ~(L = L))
1 open exists V0: (X = f(V0) & V0 = b) | finite(X); 1 else ~exists V0: (X = f(V0) & V0 = b) & ~finite(X); \
    1 holds exists V0 V1: (V0 = f(V1) & V1 = b & X = V0); 1 fails exists V0: (V0 = $0(V0) & X = V0) << \
    forall L: exists V: (L != a) <-> ~(f(b) != X -> (finite(X)))
1 open Xs != $2(W); 1 else Xs = $2(W); 1 holds exists V0 V1: (V0 = $0(V0) & V1 = $1(V1) & W = V0 & Xs = V1); \
    1 fails exists V0 V1: (V0 = $0(V0) & V1 = $2(V0) & W = V0 & Xs = V1) << (f(f(W)) != f(Xs)) -> ~~(Xs != $2(W))
1 open ~exists V0: (V1 = g(V0, V1) & V0 = a) & V1 != $1 & V1 != $0; \
    1 else exists V0: (V1 = g(V0, V1) & V0 = a) | V1 = $1 | V1 = $0; 1 holds exists V0: (V0 = $2(V0) & V1 = V0); \
    1 fails exists V0 V2: (V0 = g(V2, V0) & V2 = a & V1 = V0) << \
    (($1 != V1 <-> (g(a, V1) != V1)) & (($0 != V1 | (b = V1))))
1 open V = g(V, V) | V = a | exists V0: (V = $1(V0) & V0 = f(V)); \
    1 else V != g(V, V) & V != a & ~exists V0: (V = $1(V0) & V0 = f(V)); \
    1 holds exists V0: (V0 = g(V0, V0) & V = V0); 1 fails exists V0: (V0 = $3(V0) & V = V0) << \
    (((V != g(V, V)) -> V = a) | ($1(f(V)) = V <-> ($2(V, $0(V)) != a)))
1 open ~finite(X_1); 1 else finite(X_1); 1 holds exists V0: (V0 = $0(V0) & X_1 = V0); \
    1 fails exists V0: (V0 = $0 & X_1 = V0) << exists Xs: ((false) -> b != $1(X_1)) & forall V: ~(finite(g(X_1, V)))
1 open ~(W = $2 & V1 = $7(V1)); 1 else W = $2 & V1 = $7(V1); \
    1 holds exists V0 V2: (V0 = $0(V0) & V2 = $1(V2) & W = V0 & V1 = V2); \
    1 fails exists V0 V2: (V0 = $2 & V2 = $7(V2) & W = V0 & V1 = V2) << \
    (forall L: exists L: (W != $2)) | ((($7(V1) != V1) & (f(V1) != g(W, V1) & finite(W))))
1 open finite(W) & V0 != W | V0 = W & ~finite(W); 1 else ~finite(W) & V0 != W | finite(W) & V0 = W; \
    1 holds exists V1 V2: (V1 = $0 & V2 = $1(V2) & W = V1 & V0 = V2); \
    1 fails exists V1 V2: (V1 = $0(V1) & V2 = $1(V2) & W = V1 & V0 = V2) << \
    ((finite(f(W)) <-> W = V0) -> forall V: (W != W))
1 open V1 != $2 & ~exists V0: (V1 = g(V1, V0) & V0 = $1); 1 else V1 = $2 | exists V0: (V1 = g(V1, V0) & V0 = $1); \
    1 holds exists V0: (V0 = $0(V0) & V1 = V0); 1 fails exists V0: (V0 = $2 & V1 = V0) << \
    ($2 = V1 | g(V1, b) = f(V1)) <-> (~(g(V1, $1) != V1))
1 open X != a | X = a & finite(V0); 1 else X = a & ~finite(V0); \
    1 holds exists V1 V2: (V1 = $0(V1) & V2 = $2(V2) & X = V1 & V0 = V2); \
    1 fails exists V1 V2: (V1 = a & V2 = $0(V2) & X = V1 & V0 = V2) << \
    exists V0: exists X A9b: (V0 = $1(X, X)) & ((X != a) | finite(V0))
1 open W != $0(W); 1 else W = $0(W); 1 holds exists V0: (V0 = $1(V0) & W = V0); \
    1 fails exists V0: (V0 = $0(V0) & W = V0) << (~(f(f(W)) = a | W = f(W))) -> ~~(f($0(W)) != f(W))
1 open ~exists V0: (X = g(V0, X) & V0 = f(X)); 1 else exists V0: (X = g(V0, X) & V0 = f(X)); \
    1 holds exists V0: (V0 = $1(V0) & X = V0); 1 fails exists V0 V1: (V0 = g(V1, V0) & V1 = f(V0) & X = V0) << \
    (~(finite($0) & g(f(X), X) = X)) <-> (exists SYMBOL V1: ~(g(SYMBOL, b) = X))
1 open exists V0: (V = f(V0) & V0 = g(V, V)) | finite(V); \
    1 else ~exists V0: (V = f(V0) & V0 = g(V, V)) & ~finite(V); \
    1 holds exists V0 V1: (V0 = f(V1) & V1 = g(V0, V0) & V = V0); 1 fails exists V0: (V0 = $0(V0) & V = V0) << \
    (f(g(V, V)) = V | ((~(V = V) <-> ~(finite(f(V))))))
1 open X != a & ~(X = f(X) & V0 = $1); 1 else X = a | X = f(X) & V0 = $1; \
    1 holds exists V1 V2: (V1 = $0(V1) & V2 = $3(V2) & X = V1 & V0 = V2); \
    1 fails exists V1 V2: (V1 = a & V2 = $0(V2) & X = V1 & V0 = V2) << \
    ((X != a) & (((a = V0 | X != f(X))) | (g(V0, a) = $2(X, V0) <-> ($1 = V0))))
1 open SYMBOL != V1 | finite(V1) & SYMBOL = V1; 1 else SYMBOL = V1 & ~finite(V1); \
    1 holds exists V0 V2: (V0 = $0(V0) & V2 = $1(V2) & V1 = V0 & SYMBOL = V2); \
    1 fails exists V0: (V0 = $0(V0) & V1 = V0 & SYMBOL = V0) << \
    forall SYMBOL: exists V: (finite(f(V1))) | ~(V1 = SYMBOL)
1 open ~exists V0: (W = $0(V0) & V0 = $7) & ~exists V0: (W = f(V0) & V0 = a); \
    1 else exists V0: (W = $0(V0) & V0 = $7) | exists V0: (W = f(V0) & V0 = a); \
    1 holds exists V0: (V0 = $1(V0) & W = V0); 1 fails exists V0 V1: (V0 = $0(V1) & V1 = $7 & W = V0) << \
    ~(($0($7) != W) <-> f(a) = W)
1 open V0 = A9b & ~finite(A9b); 1 else V0 != A9b | finite(A9b) & V0 = A9b; \
    1 holds exists V1: (V1 = $0(V1) & A9b = V1 & V0 = V1); \
    1 fails exists V1 V2: (V1 = $0(V1) & V2 = $1(V2) & A9b = V1 & V0 = V2) << \
    ~(((($7(f(A9b), A9b) != f(A9b)) <-> finite($2(V0, V0))) | exists SYMBOL X_1: (V0 != A9b)))
1 open exists V1: V0 = g(V1, V1) | V0 = a; 1 else ~exists V1: V0 = g(V1, V1) & V0 != a; \
    1 holds exists V1 V2: (V1 = g(V2, V2) & V2 = $0(V2) & V0 = V1); 1 fails exists V1: (V1 = $0(V1) & V0 = V1) << \
    exists W: (V0 = g(W, W)) | ((((V0 != V0) | finite(b))) -> forall Xs: (V0 = a))
1 open exists V0: (Y = $0(Y, V0) & V0 = f(Y)); 1 else ~exists V0: (Y = $0(Y, V0) & V0 = f(Y)); \
    1 holds exists V0 V1: (V0 = $0(V0, V1) & V1 = f(V0) & Y = V0); 1 fails exists V0: (V0 = $1(V0) & Y = V0) << \
    exists X: ((Y = $0(Y, X)) & X = f(Y)) <-> (f(f(Y)) != b | (finite(b) & (g(Y, b) != f(Y))))
1 open ~finite(X_1) | X_1 = $0; 1 else finite(X_1) & X_1 != $0; 1 holds exists V0: (V0 = $1(V0) & X_1 = V0); \
    1 fails exists V0: (V0 = $1 & X_1 = V0) << ~~(finite(X_1)) <-> exists L Z: ($0 = X_1)
1 open V != $1(V, V) & V != b; 1 else V = $1(V, V) | V = b; 1 holds exists V0: (V0 = $2(V0) & V = V0); \
    1 fails exists V0: (V0 = $1(V0, V0) & V = V0) << \
    (~(V = $1(V, V)) & (V = b | finite(a))) & ((exists V1 X: ($0(b, $0) = X)) -> V != b)
1 open ~finite(X_1) | X_1 = a; 1 else finite(X_1) & X_1 != a; 1 holds exists V0: (V0 = $0(V0) & X_1 = V0); \
    1 fails exists V0: (V0 = $0 & X_1 = V0) << \
    forall A9b: (g(a, g(X_1, X_1)) != a) & (finite($1(X_1, X_1)) -> a = X_1)
1 open ~exists V0: (V1 = $7(V1, V0) & V0 = a) & V1 != a; 1 else exists V0: (V1 = $7(V1, V0) & V0 = a) | V1 = a; \
    1 holds exists V0: (V0 = $0(V0) & V1 = V0); 1 fails exists V0 V2: (V0 = $7(V0, V2) & V2 = a & V1 = V0) << \
    ~(finite($7)) | ((($7(V1, a) != V1) & (a != V1)))
1 open exists V0: (Z = g(Z, V0) & V0 = f(Z)) | finite(Z); \
    1 else ~exists V0: (Z = g(Z, V0) & V0 = f(Z)) & ~finite(Z); \
    1 holds exists V0 V1: (V0 = g(V0, V1) & V1 = f(V0) & Z = V0); 1 fails exists V0: (V0 = $0(V0) & Z = V0) << \
    (g(Z, f(Z)) = Z | finite(Z)) | (forall V0: (finite(V0)))
1 open Z != Xs & Z != a | Xs = a & Z = Xs; 1 else Z = Xs & Xs != a | Z = a & Xs != Z; \
    1 holds exists V0 V1: (V0 = $0(V0) & V1 = $1(V1) & Xs = V0 & Z = V1); \
    1 fails exists V0: (V0 = $0(V0) & Xs = V0 & Z = V0) << \
    ((~~(a = Xs)) | (((a = Z <-> Xs != Z)) <-> forall V0: (Z = f(V0))))
1 open SYMBOL = $2(SYMBOL) | SYMBOL = f(SYMBOL); 1 else SYMBOL != $2(SYMBOL) & SYMBOL != f(SYMBOL); \
    1 holds exists V0: (V0 = $2(V0) & SYMBOL = V0); 1 fails exists V0: (V0 = $0(V0) & SYMBOL = V0) << \
    ~((SYMBOL != $2(SYMBOL) & g(f(SYMBOL), SYMBOL) != g(SYMBOL, SYMBOL)) | ~(finite(b)))
1 open ~finite(SYMBOL) | exists V0: (SYMBOL = f(V0) & V0 = $7); \
    1 else finite(SYMBOL) & ~exists V0: (SYMBOL = f(V0) & V0 = $7); 1 holds exists V0: (V0 = $0(V0) & SYMBOL = V0); \
    1 fails exists V0: (V0 = $0 & SYMBOL = V0) << ((true | a = SYMBOL)) & (finite(SYMBOL) -> f($7) = SYMBOL)
1 open X_1 != $0(V1); 1 else X_1 = $0(V1); 1 holds exists V0 V2: (V0 = $1(V0) & V2 = $2(V2) & X_1 = V0 & V1 = V2); \
    1 fails exists V0 V2: (V0 = $0(V2) & V2 = $1(V2) & X_1 = V0 & V1 = V2) << exists SYMBOL: ~~(X_1 != $0(V1))
1 open X != g(V0, X) | V0 = $0 & X = g(V0, X); 1 else X = g(V0, X) & V0 != $0; \
    1 holds exists V1 V2: (V1 = $1(V1) & V2 = $2(V2) & V0 = V1 & X = V2); \
    1 fails exists V1 V2: (V1 = $1(V1) & V2 = g(V1, V2) & V0 = V1 & X = V2) << \
    ((g(V0, X) = X) -> ((a = b) <-> (V0 != $0)))
1 open ~(X = a & V1 = X); 1 else X = a & V1 = X; \
    1 holds exists V0 V2: (V0 = $0(V0) & V2 = $2(V2) & X = V0 & V1 = V2); \
    1 fails exists V0: (V0 = a & X = V0 & V1 = V0) << \
    exists A9b: forall V: (A9b = A9b) & ((X = V1 -> $1 = $1(X)) | ~(a = V1))
1 open ~exists V1: (V0 = g(V0, V1) & V1 = $1(V0)); 1 else exists V1: (V0 = g(V0, V1) & V1 = $1(V0)); \
    1 holds exists V1: (V1 = $2(V1) & V0 = V1); 1 fails exists V1 V2: (V1 = g(V1, V2) & V2 = $1(V1) & V0 = V1) << \
    (finite($0(V0, V0)) | (((finite(b)) <-> g(V0, $1(V0)) != V0)))
1 open V1 = b | finite(U); 1 else V1 != b & ~finite(U); \
    1 holds exists V0 V2: (V0 = b & V2 = $2(V2) & V1 = V0 & U = V2); \
    1 fails exists V0 V2: (V0 = $2(V0) & V2 = $3(V2) & V1 = V0 & U = V2) << \
    (~(b = V1) -> finite($0(U))) | ((f(V1) = g(U, U) | (f(V1) = $1)) | (g(f(V1), U) = $0 | g(a, U) = b))
1 open exists V0 V1: (Xs = $0(V0, V1) & V0 = b & V1 = a); 1 else ~exists V0 V1: (Xs = $0(V0, V1) & V0 = b & V1 = a); \
    1 holds exists V0 V1 V2: (V0 = $0(V1, V2) & V1 = b & V2 = a & Xs = V0); \
    1 fails exists V0: (V0 = $1(V0) & Xs = V0) << exists L: forall V1: ~($0(b, a) != Xs)
1 open L != g(L, L) & ~finite(U) | finite(U) & L = g(L, L); \
    1 else L = g(L, L) & ~finite(U) | finite(U) & L != g(L, L); \
    1 holds exists V0 V1: (V0 = $0(V0) & V1 = $1(V1) & U = V0 & L = V1); \
    1 fails exists V0 V1: (V0 = $0(V0) & V1 = g(V1, V1) & U = V0 & L = V1) << ~(finite(U) <-> g(L, L) != L)
1 open Y != $1 & ~exists V0: (Y = $0(V0, V0) & V0 = a); 1 else Y = $1 | exists V0: (Y = $0(V0, V0) & V0 = a); \
    1 holds exists V0: (V0 = $2(V0) & Y = V0); 1 fails exists V0: (V0 = $1 & Y = V0) << \
    exists A9b L: (((f(g(L, A9b)) = a <-> Y = $1) & (~($0(a, a) = Y))))
1 open finite(Xs) | Xs = $1(X, Xs); 1 else ~finite(Xs) & Xs != $1(X, Xs); \
    1 holds exists V0 V1: (V0 = $0 & V1 = $2(V1) & Xs = V0 & X = V1); \
    1 fails exists V0 V1: (V0 = $0(V0) & V1 = $2(V1) & Xs = V0 & X = V1) << \
    (forall Z L: (finite(Xs))) | exists L: ($1(X, Xs) = Xs)
1 open Z = g(Z, Z) | finite(Z) & Z != $2; 1 else Z != g(Z, Z) & ~finite(Z) | Z = $2; \
    1 holds exists V0: (V0 = g(V0, V0) & Z = V0); 1 fails exists V0: (V0 = $0(V0) & Z = V0) << \
    ((g(Z, Z) = Z) | (finite(f(Z)))) <-> forall U: (Z != $2)
1 open ~exists V0: X = f(V0); 1 else exists V0: X = f(V0); 1 holds exists V0: (V0 = $0(V0) & X = V0); \
    1 fails exists V0 V1: (V0 = f(V1) & V1 = $0(V1) & X = V0) << \
    (exists U: (X = f(U)) & ~(X = a)) -> (~exists Z V0: ($2 != b))
1 open exists V0: W = $7(V0) | finite(W); 1 else ~exists V0: W = $7(V0) & ~finite(W); \
    1 holds exists V0 V1: (V0 = $7(V1) & V1 = $0(V1) & W = V0); 1 fails exists V0: (V0 = $0(V0) & W = V0) << \
    exists SYMBOL: (((W = $7(SYMBOL) | (finite(f(W))))) | ~(a != f(SYMBOL)))
1 open L != a & L != $0(L); 1 else L = a | L = $0(L); 1 holds exists V0: (V0 = $1(V0) & L = V0); \
    1 fails exists V0: (V0 = a & L = V0) << ((L != $0(L) <-> ~(a = L)) <-> forall V0 U: exists L: (U = L))
1 open ~finite(X_1) | finite(X_1) & V0 = g(V0, V0); 1 else finite(X_1) & V0 != g(V0, V0); \
    1 holds exists V1 V2: (V1 = $0(V1) & V2 = $1(V2) & X_1 = V1 & V0 = V2); \
    1 fails exists V1 V2: (V1 = $0 & V2 = $1(V2) & X_1 = V1 & V0 = V2) << ~(finite(X_1) & V0 != g(V0, V0))
1 open ~exists V0: Z = g(Z, V0); 1 else exists V0: Z = g(Z, V0); 1 holds exists V0: (V0 = $0(V0) & Z = V0); \
    1 fails exists V0 V1: (V0 = g(V0, V1) & V1 = $0(V1) & Z = V0) << \
    ((exists Z L: (Z = f(Z)) & f(b) = a)) | forall V1: (Z != g(Z, V1))
1 open ~finite(X) & X != a | X = b; 1 else finite(X) & X != b | X = a; 1 holds exists V0: (V0 = $0(V0) & X = V0); \
    1 fails exists V0: (V0 = $0 & X = V0) << \
    ((X = g(X, X) & finite(g(X, X))) | (finite(X) | X = a)) <-> (b = X & ((X != $7 -> true)))
1 open Z = $7(V1); 1 else Z != $7(V1); 1 holds exists V0 V2: (V0 = $7(V2) & V2 = $0(V2) & Z = V0 & V1 = V2); \
    1 fails exists V0 V2: (V0 = $0(V0) & V2 = $1(V2) & Z = V0 & V1 = V2) << \
    f(g(Z, Z)) != b & (((V1 != f(V1)) | (b != a)) -> (~(Z != $7(V1))))
1 open finite(X_1) & X_1 != a; 1 else ~finite(X_1) | X_1 = a; \
    1 holds exists V1 V2: (V1 = $0 & V2 = $1(V2) & X_1 = V1 & V0 = V2); \
    1 fails exists V1 V2: (V1 = $0(V1) & V2 = $1(V2) & X_1 = V1 & V0 = V2) << \
    ~((~(X_1 != a) | ((finite(X_1) <-> g(X_1, V0) = a))))
1 open exists V1: (V0 = g(V0, V1) & V1 = a); 1 else ~exists V1: (V0 = g(V0, V1) & V1 = a); \
    1 holds exists V1 V2: (V1 = g(V1, V2) & V2 = a & V0 = V1); 1 fails exists V1: (V1 = $0(V1) & V0 = V1) << \
    ((finite(a) -> (g(V0, f(V0)) = f(V0))) | (((g(V0, a) != V0) <-> b = a)))
1 open finite(W) | X_1 = b; 1 else ~finite(W) & X_1 != b; \
    1 holds exists V0 V1: (V0 = $0(V0) & V1 = $2 & X_1 = V0 & W = V1); \
    1 fails exists V0 V1: (V0 = $0(V0) & V1 = $2(V1) & X_1 = V0 & W = V1) << \
    ((forall V: (g(b, X_1) != $1) -> (exists U X: (finite(W))))) | (X_1 = b)
1 open W != $0(W) & ~exists V0: (W = f(V0) & V0 = g(W, W)) & W != f(W); \
    1 else W = $0(W) | exists V0: (W = f(V0) & V0 = g(W, W)) | W = f(W); 1 holds exists V0: (V0 = $1(V0) & W = V0); \
    1 fails exists V0: (V0 = $0(V0) & W = V0) << ~(f(f(W)) = f(W)) <-> (W != $0(W) & f(g(W, W)) != W)
1 open A9b != g(V1, V1); 1 else A9b = g(V1, V1); \
    1 holds exists V0 V2: (V0 = $0(V0) & V2 = $1(V2) & V1 = V0 & A9b = V2); \
    1 fails exists V0 V2: (V0 = $0(V0) & V2 = g(V0, V0) & V1 = V0 & A9b = V2) << \
    (exists X_1: (g(V1, A9b) = X_1) & ((A9b = g(V1, V1)) & A9b != b)) <-> forall Xs: (b = Xs | Xs = $7)
1 open W != SYMBOL | SYMBOL = $0 & W = SYMBOL; 1 else W = SYMBOL & SYMBOL != $0; \
    1 holds exists V0 V1: (V0 = $1(V0) & V1 = $2(V1) & SYMBOL = V0 & W = V1); \
    1 fails exists V0: (V0 = $1(V0) & SYMBOL = V0 & W = V0) << ~~(SYMBOL != W) | ($0 = SYMBOL & b != W)
1 open ~exists V0: (V1 = f(V0) & V0 = f(V1)); 1 else exists V0: (V1 = f(V0) & V0 = f(V1)); \
    1 holds exists V0: (V0 = $0(V0) & V1 = V0); 1 fails exists V0 V2: (V0 = f(V2) & V2 = f(V0) & V1 = V0) << \
    (f(f(V1)) = V1 & g($2(V1, V1), a) != V1) -> forall Z L: (finite(L))
1 open ~finite(V0) | V0 = b; 1 else finite(V0) & V0 != b; \
    1 holds exists V1 V2: (V1 = $0(V1) & V2 = $1(V2) & V0 = V1 & Y = V2); \
    1 fails exists V1 V2: (V1 = $0 & V2 = $1(V2) & V0 = V1 & Y = V2) << \
    (~(b != V0) | ~(finite(f(V0)))) & exists W: ((Y != V0) | finite(a))
1 open ~exists V0: V1 = g(V1, V0); 1 else exists V0: V1 = g(V1, V0); 1 holds exists V0: (V0 = $0(V0) & V1 = V0); \
    1 fails exists V0 V2: (V0 = g(V0, V2) & V2 = $0(V2) & V1 = V0) << \
    (forall X: (V1 != g(V1, X))) <-> (exists W X: (finite(X)))
1 open ~finite(X_1) | exists V0: (X_1 = f(V0) & V0 = b); 1 else finite(X_1) & ~exists V0: (X_1 = f(V0) & V0 = b); \
    1 holds exists V0: (V0 = $0(V0) & X_1 = V0); 1 fails exists V0: (V0 = $0 & X_1 = V0) << \
    (forall L V1: (finite(g(X_1, V1)))) | ((finite(f(X_1)) -> (f(b) = X_1)))
1 open V1 != $0(U); 1 else V1 = $0(U); 1 holds exists V0 V2: (V0 = $1(V0) & V2 = $2(V2) & U = V0 & V1 = V2); \
    1 fails exists V0 V2: (V0 = $1(V0) & V2 = $0(V0) & U = V0 & V1 = V2) << \
    ~($0(U) = V1) <-> ((U = U) | g(b, f(U)) != b)
1 open ~finite(Z) | Z = b & X = $0; 1 else finite(Z) & ~(Z = b & X = $0); \
    1 holds exists V0 V1: (V0 = $1(V0) & V1 = $2(V1) & Z = V0 & X = V1); \
    1 fails exists V0 V1: (V0 = $1 & V1 = $2(V1) & Z = V0 & X = V1) << \
    exists L: exists V: (V = Z) & ((($0 = X) & b = Z) | ~(finite(f(Z))))
1 open ~exists V0: (V = g(V, V0) & V0 = f(V)); 1 else exists V0: (V = g(V, V0) & V0 = f(V)); \
    1 holds exists V0: (V0 = $0(V0) & V = V0); 1 fails exists V0 V1: (V0 = g(V0, V1) & V1 = f(V0) & V = V0) << \
    ((g(V, f(V)) = V -> (forall A9b: (finite($2(A9b, V)))))) & (forall Xs: (finite(b)))
1 open ~finite(L) | L = $1 | L = a; 1 else finite(L) & L != $1 & L != a; 1 holds exists V0: (V0 = $0(V0) & L = V0); \
    1 fails exists V0: (V0 = $0 & L = V0) << exists Xs X: ((finite(L)) -> $1 = L) | ((~(a != L) | (f(L) = L)))
1 open ~exists V0: (U = f(V0) & V0 = $0(U)); 1 else exists V0: (U = f(V0) & V0 = $0(U)); \
    1 holds exists V0 V1: (V0 = $1(V0) & V1 = $2(V1) & U = V0 & Z = V1); \
    1 fails exists V0 V1 V2: (V0 = f(V2) & V1 = $1(V1) & V2 = $0(V0) & U = V0 & Z = V1) << \
    ~~(f($0(U)) != U) | (a = f(Z))
1 open V1 != $2 & ~exists V0: (V1 = f(V0) & V0 = g(V1, V1)); \
    1 else V1 = $2 | exists V0: (V1 = f(V0) & V0 = g(V1, V1)); 1 holds exists V0: (V0 = $0(V0) & V1 = V0); \
    1 fails exists V0: (V0 = $2 & V1 = V0) << ~(g(V1, V1) != a & (($2 = V1 | (f(g(V1, V1)) = V1))))
1 open V0 = g(U, U); 1 else V0 != g(U, U); 1 holds exists V1 V2: (V1 = g(V2, V2) & V2 = $0(V2) & V0 = V1 & U = V2); \
    1 fails exists V1 V2: (V1 = $0(V1) & V2 = $1(V2) & V0 = V1 & U = V2) << \
    ((exists U: ((g(U, f(U)) = b) <-> $2(U, a) = g(V0, V0))) & (forall X: ((V0 = g(U, U)) & true)))
1 open X != $1(X) & ~finite(X); 1 else X = $1(X) | finite(X); 1 holds exists V0: (V0 = $0(V0) & X = V0); \
    1 fails exists V0: (V0 = $1(V0) & X = V0) << (~($1(X) = X) & (((X != X) <-> (finite(X)))))
1 open exists V0: (W = f(V0) & V0 = f(W)); 1 else ~exists V0: (W = f(V0) & V0 = f(W)); \
    1 holds exists V0 V1: (V0 = f(V1) & V1 = f(V0) & W = V0); 1 fails exists V0: (V0 = $0(V0) & W = V0) << \
    ~~(f(f(W)) = W) & forall V0: (b != W)
1 open Y != b & V1 != f(V1) | Y = b & V1 = f(V1); 1 else Y = b & V1 != f(V1) | V1 = f(V1) & Y != b; \
    1 holds exists V0 V2: (V0 = $0(V0) & V2 = $1(V2) & Y = V0 & V1 = V2); \
    1 fails exists V0 V2: (V0 = b & V2 = $0(V2) & Y = V0 & V1 = V2) << \
    (a = a -> (b = Y)) <-> ((g(V1, V1) = a | f(f(V1)) = f(V1)))
1 open finite(U) | V1 = a; 1 else ~finite(U) & V1 != a; \
    1 holds exists V0 V2: (V0 = $0 & V2 = $1(V2) & U = V0 & V1 = V2); \
    1 fails exists V0 V2: (V0 = $0(V0) & V2 = $1(V2) & U = V0 & V1 = V2) << \
    forall V1: exists V1: (V1 = b) -> (((finite(f(U))) | V1 = a))
1 open exists V0: (X = f(V0) & V0 = a) | X = f(X); 1 else ~exists V0: (X = f(V0) & V0 = a) & X != f(X); \
    1 holds exists V0 V1: (V0 = f(V1) & V1 = a & X = V0); 1 fails exists V0: (V0 = $0(V0) & X = V0) << \
    (f(a) = X) | ((~(f(X) = X) -> exists X_1: (b = $1(X_1))))
1 open V1 != $2; 1 else V1 = $2; 1 holds exists V0 V2: (V0 = $1(V0) & V2 = $3(V2) & V1 = V0 & L = V2); \
    1 fails exists V0 V2: (V0 = $2 & V2 = $1(V2) & V1 = V0 & L = V2) << \
    (forall SYMBOL: (a != a) -> (f(a) = V1 | $0(b, V1) != $2(L, V1))) & $2 != V1
1 open ~(V0 = a & finite(Z)); 1 else V0 = a & finite(Z); \
    1 holds exists V1 V2: (V1 = $0(V1) & V2 = $1(V2) & V0 = V1 & Z = V2); \
    1 fails exists V1 V2: (V1 = a & V2 = $0 & V0 = V1 & Z = V2) << \
    ((~(f(a) = V0 | a != V0)) -> (((a = a & (false))) <-> (g(g(V0, V0), V0) != b <-> finite(g(V0, Z)))))
1 open ~finite(A9b) | A9b = b; 1 else finite(A9b) & A9b != b; 1 holds exists V0: (V0 = $1(V0) & A9b = V0); \
    1 fails exists V0: (V0 = $1 & A9b = V0) << \
    (((~(finite(f(A9b)))) | ~($0(A9b) = g(A9b, A9b))) & ((exists W: (b = A9b) <-> finite(A9b))))
1 open ~exists V1: (V0 = f(V1) & V1 = a); 1 else exists V1: (V0 = f(V1) & V1 = a); \
    1 holds exists V1: (V1 = $0(V1) & V0 = V1); 1 fails exists V1 V2: (V1 = f(V2) & V2 = a & V0 = V1) << \
    ~(f(a) = V0 -> f(V0) = a) -> (~(g(V0, a) != V0) & ~(g(b, g(V0, V0)) = V0))
1 open W = g(W, W) & Z = W | finite(Z); 1 else ~(W = g(W, W) & Z = W) & ~finite(Z); \
    1 holds exists V0: (V0 = g(V0, V0) & W = V0 & Z = V0); \
    1 fails exists V0 V1: (V0 = $0(V0) & V1 = $1(V1) & W = V0 & Z = V1) << \
    (((a = b) <-> g(g(W, W), W) != g(Z, Z)) | exists Y: (finite(Z)))
1 open V != $0(V, V) & ~exists V0: (V = g(V0, V) & V0 = $2); \
    1 else V = $0(V, V) | exists V0: (V = g(V0, V) & V0 = $2); 1 holds exists V0: (V0 = $1(V0) & V = V0); \
    1 fails exists V0: (V0 = $0(V0, V0) & V = V0) << (~(V = $0(V, V)) -> (g($2, V) = V | b = a)) -> (b = V)
1 open W != $7(X); 1 else W = $7(X); 1 holds exists V0 V1: (V0 = $0(V0) & V1 = $2(V1) & X = V0 & W = V1); \
    1 fails exists V0 V1: (V0 = $0(V0) & V1 = $7(V0) & X = V0 & W = V1) << \
    (($7(X) = W -> ((W = $7) & X = b))) | (((exists V0: ($1 != a)) & false))
1 open finite(U) | finite(Z); 1 else ~finite(U) & ~finite(Z); \
    1 holds exists V0 V1: (V0 = $1 & V1 = $2(V1) & U = V0 & Z = V1); \
    1 fails exists V0 V1: (V0 = $1(V0) & V1 = $2(V1) & U = V0 & Z = V1) << \
    (~((finite(U)) | (finite($0(Z, Z))))) <-> forall Z: (f(f(Z)) = g(Z, Z))
1 open W = g(V1, W); 1 else W != g(V1, W); 1 holds exists V0 V2: (V0 = g(V2, V0) & V2 = $0(V2) & W = V0 & V1 = V2); \
    1 fails exists V0 V2: (V0 = $0(V0) & V2 = $1(V2) & W = V0 & V1 = V2) << \
    forall X_1: (W = g(V1, W)) & exists SYMBOL: (f(g(SYMBOL, V1)) != b)
1 open A9b = b | exists V0: (A9b = $0(V0) & V0 = b); 1 else A9b != b & ~exists V0: (A9b = $0(V0) & V0 = b); \
    1 holds exists V0: (V0 = b & A9b = V0); 1 fails exists V0: (V0 = $2(V0) & A9b = V0) << \
    (((false | b = A9b)) & ($1 != A9b | ($7(b) = a))) | (((~($0(b) = A9b)) -> a = g(A9b, A9b)))
1 open Xs != $0(Xs); 1 else Xs = $0(Xs); 1 holds exists V0: (V0 = $1(V0) & Xs = V0); \
    1 fails exists V0: (V0 = $0(V0) & Xs = V0) << \
    (~~(g($0(Xs), Xs) != g(Xs, Xs)) | ((Xs = Xs) <-> ((finite(Xs) <-> $2(b) != b))))
1 open ~finite(V0) | finite(V0) & U = $1; 1 else finite(V0) & U != $1; \
    1 holds exists V1 V2: (V1 = $0(V1) & V2 = $2(V2) & V0 = V1 & U = V2); \
    1 fails exists V1 V2: (V1 = $0 & V2 = $2(V2) & V0 = V1 & U = V2) << finite(V0) -> ((U = U & U = $1))
1 open Xs != a | Xs = a & finite(Y); 1 else Xs = a & ~finite(Y); \
    1 holds exists V0 V1: (V0 = $0(V0) & V1 = $1(V1) & Xs = V0 & Y = V1); \
    1 fails exists V0 V1: (V0 = a & V1 = $0(V1) & Xs = V0 & Y = V1) << \
    (~exists A9b: (a != Xs) -> (((finite(g(Y, Y)) | Xs = g(Xs, Xs))) <-> (~(Y != Y))))
1 open exists V0: (V = g(V0, V0) & V0 = b) | V = f(V) | finite(V); \
    1 else ~exists V0: (V = g(V0, V0) & V0 = b) & V != f(V) & ~finite(V); \
    1 holds exists V0 V1: (V0 = g(V1, V1) & V1 = b & V = V0); 1 fails exists V0: (V0 = $0(V0) & V = V0) << \
    (g(b, b) != V & a != b) -> ((f(V) = V | finite(V)))
1 open Z != $2 & ~exists V0: (Z = f(V0) & V0 = $1(X)); 1 else Z = $2 | exists V0: (Z = f(V0) & V0 = $1(X)); \
    1 holds exists V0 V1: (V0 = $0(V0) & V1 = $3(V1) & X = V0 & Z = V1); \
    1 fails exists V0 V1: (V0 = $0(V0) & V1 = $2 & X = V0 & Z = V1) << exists Y: ~((f($1(X)) = Z) <-> $2 != Z)
1 open finite(W) & V1 != W; 1 else ~finite(W) | finite(W) & V1 = W; \
    1 holds exists V0 V2: (V0 = $0 & V2 = $1(V2) & W = V0 & V1 = V2); \
    1 fails exists V0 V2: (V0 = $0(V0) & V2 = $1(V2) & W = V0 & V1 = V2) << \
    exists V1 Z: forall X_1: (finite(W)) & (~(V1 = W))
1 open U != g(U, U) & ~finite(U); 1 else U = g(U, U) | finite(U); 1 holds exists V0: (V0 = $0(V0) & U = V0); \
    1 fails exists V0: (V0 = g(V0, V0) & U = V0) << \
    ~exists Xs: (U != $1(Xs, Xs)) | ((g(U, U) != U) & ~(finite(g(U, U))))
1 open L != V1 & V1 != $0 | V1 = $0 & L = V1; 1 else L = V1 & V1 != $0 | V1 = $0 & L != V1; \
    1 holds exists V0 V2: (V0 = $1(V0) & V2 = $2(V2) & V1 = V0 & L = V2); \
    1 fails exists V0: (V0 = $1(V0) & V1 = V0 & L = V0) << (~(V1 = $0)) <-> ~(V1 = L)
1 open exists V1: (V0 = $0(V0, V1) & V1 = a); 1 else ~exists V1: (V0 = $0(V0, V1) & V1 = a); \
    1 holds exists V1 V2: (V1 = $0(V1, V2) & V2 = a & V0 = V1); 1 fails exists V1: (V1 = $1(V1) & V0 = V1) << \
    ((~(g(V0, b) = V0 | $0(V0, a) != V0)) | ((((f(a) != b) -> V0 != V0)) <-> (V0 = V0 | false)))
1 open Y != g(X, X); 1 else Y = g(X, X); 1 holds exists V0 V1: (V0 = $1(V0) & V1 = $2(V1) & X = V0 & Y = V1); \
    1 fails exists V0 V1: (V0 = $1(V0) & V1 = g(V0, V0) & X = V0 & Y = V1) << \
    ~(((($0(g(X, X), Y) != a) | g(Y, $7) = Y) -> (finite(a) <-> f(g(X, X)) = f(Y))))
1 open finite(Xs) & Y != b | Y = b & ~finite(Xs); 1 else ~finite(Xs) & Y != b | finite(Xs) & Y = b; \
    1 holds exists V0 V1: (V0 = $0 & V1 = $1(V1) & Xs = V0 & Y = V1); \
    1 fails exists V0 V1: (V0 = $0(V0) & V1 = $1(V1) & Xs = V0 & Y = V1) << \
    ~((exists A9b: (finite(A9b)) & ((finite(Xs)) <-> Y = b)))
1 open exists V0 V1: (W = g(V0, W) & V0 = f(V1)); 1 else ~exists V0 V1: (W = g(V0, W) & V0 = f(V1)); \
    1 holds exists V0 V1 V2: (V0 = g(V1, V0) & V1 = f(V2) & V2 = $0(V2) & W = V0); \
    1 fails exists V0: (V0 = $0(V0) & W = V0) << forall U: exists V1: (g(f(V1), W) = W)
1 open ~(finite(V) & finite(Y)); 1 else finite(V) & finite(Y); \
    1 holds exists V0 V1: (V0 = $2(V0) & V1 = $3(V1) & V = V0 & Y = V1); \
    1 fails exists V0 V1: (V0 = $2 & V1 = $3 & V = V0 & Y = V1) << \
    (((V != $0 <-> $1 = Y) | g(V, V) != a) -> (~(b != b) -> (~(finite(g(Y, V))))))
1 open ~exists V0: (V1 = $7(V0) & V0 = f(V1)) & V1 != $0; 1 else exists V0: (V1 = $7(V0) & V0 = f(V1)) | V1 = $0; \
    1 holds exists V0: (V0 = $1(V0) & V1 = V0); 1 fails exists V0 V2: (V0 = $7(V2) & V2 = f(V0) & V1 = V0) << \
    ~((($7(f(V1)) != V1 <-> V1 = V1) <-> (V1 = $0 & true)))
1 open Y != W | W = a & Y = W; 1 else Y = W & W != a; \
    1 holds exists V0 V1: (V0 = $0(V0) & V1 = $1(V1) & W = V0 & Y = V1); \
    1 fails exists V0: (V0 = $0(V0) & W = V0 & Y = V0) << \
    forall Y: exists A9b: (W != a) -> (W = Y -> (f(g(Y, Y)) = g(W, Y)))
1 open V = $1 | V = f(V); 1 else V != $1 & V != f(V); 1 holds exists V0: (V0 = $1 & V = V0); \
    1 fails exists V0: (V0 = $0(V0) & V = V0) << \
    (~(g(g(V, V), V) = V <-> (b = b)) & (exists X_1: (V = V) & (V = f(V) <-> $1 != V)))
1 open ~exists V0: (W = f(V0) & V0 = a); 1 else exists V0: (W = f(V0) & V0 = a); \
    1 holds exists V0: (V0 = $0(V0) & W = V0); 1 fails exists V0 V1: (V0 = f(V1) & V1 = a & W = V0) << \
    ~exists X_1: false & ((f(a) = W) -> forall Y: (b = $1(W)))
1 open exists V1: (V0 = g(V0, V1) & V1 = $7); 1 else ~exists V1: (V0 = g(V0, V1) & V1 = $7); \
    1 holds exists V1 V2: (V1 = g(V1, V2) & V2 = $7 & V0 = V1); 1 fails exists V1: (V1 = $0(V1) & V0 = V1) << \
    ((exists U: (U = $1 & g(a, V0) != U)) & (exists Y: (Y = f(Y)) <-> g(V0, $7) = V0))
1 open U != $2; 1 else U = $2; 1 holds exists V0: (V0 = $0(V0) & U = V0); 1 fails exists V0: (V0 = $2 & U = V0) << \
    ~(U != $2) -> ~(g(g(U, U), U) != U | U = a)
1 open W = a & ~finite(L) | finite(L) & W != a; 1 else W != a & ~finite(L) | finite(L) & W = a; \
    1 holds exists V0 V1: (V0 = $0(V0) & V1 = a & L = V0 & W = V1); \
    1 fails exists V0 V1: (V0 = $0(V0) & V1 = $1(V1) & L = V0 & W = V1) << \
    ~(a = f(L) | a = W) <-> (~(f(L) = L) & (finite(L)))
1 open ~exists V0: (W = f(V0) & V0 = g(W, W)); 1 else exists V0: (W = f(V0) & V0 = g(W, W)); \
    1 holds exists V0: (V0 = $0(V0) & W = V0); 1 fails exists V0 V1: (V0 = f(V1) & V1 = g(V0, V0) & W = V0) << \
    forall SYMBOL: ~(f(g(W, W)) = W) <-> ((~(a != b)) | ~(W != W))
1 open exists V0: L = $1(V0, V0); 1 else ~exists V0: L = $1(V0, V0); \
    1 holds exists V0 V1 V2: (V0 = $1(V2, V2) & V1 = $0(V1) & V2 = $2(V2) & L = V0 & Y = V1); \
    1 fails exists V0 V1: (V0 = $0(V0) & V1 = $2(V1) & L = V0 & Y = V1) << \
    ~((f(b) = g(L, Y) & a != L) <-> exists X: (L = $1(X, X)))
1 open V1 = V | finite(V1); 1 else V1 != V & ~finite(V1); 1 holds exists V0: (V0 = $0(V0) & V = V0 & V1 = V0); \
    1 fails exists V0 V2: (V0 = $0(V0) & V2 = $1(V2) & V = V0 & V1 = V2) << \
    exists Xs: ((V = V1 | (finite(g(Xs, V1)))) | forall V0 V1: (V1 = $2))
1 open ~exists V0: (U = g(V0, U) & V0 = g(U, U)) & U != f(U); \
    1 else exists V0: (U = g(V0, U) & V0 = g(U, U)) | U = f(U); 1 holds exists V0: (V0 = $1(V0) & U = V0); \
    1 fails exists V0 V1: (V0 = g(V1, V0) & V1 = g(V0, V0) & U = V0) << \
    ~(($0 != b & (g(g(U, U), U) = U)) | ~(f(U) != U))
1 open W = $0(W) & ~finite(SYMBOL); 1 else W != $0(W) | W = $0(W) & finite(SYMBOL); \
    1 holds exists V0 V1: (V0 = $0(V0) & V1 = $1(V1) & W = V0 & SYMBOL = V1); \
    1 fails exists V0 V1: (V0 = $1(V0) & V1 = $2(V1) & W = V0 & SYMBOL = V1) << \
    ~((W = $0(W) -> (finite(SYMBOL) <-> (b = b))))
1 open finite(V1) | V1 = f(V1); 1 else ~finite(V1) & V1 != f(V1); 1 holds exists V0: (V0 = $1 & V1 = V0); \
    1 fails exists V0: (V0 = $1(V0) & V1 = V0) << ((finite(V1) | V1 != V1)) | ((f(f(V1)) != $0 & (V1 = f(V1))))
1 open X_1 != f(W) | X_1 = f(X_1) & W = X_1; 1 else X_1 = f(W) & W != X_1; \
    1 holds exists V0 V1: (V0 = $0(V0) & V1 = $1(V1) & X_1 = V0 & W = V1); \
    1 fails exists V0 V1: (V0 = f(V1) & V1 = $0(V1) & X_1 = V0 & W = V1) << ~(X_1 != f(W)) -> ~(f(X_1) != X_1)
1 open ~(finite(Xs) & finite(V0)); 1 else finite(Xs) & finite(V0); \
    1 holds exists V1 V2: (V1 = $2(V1) & V2 = $3(V2) & Xs = V1 & V0 = V2); \
    1 fails exists V1 V2: (V1 = $2 & V2 = $3 & Xs = V1 & V0 = V2) << \
    ((~($1 = a)) | (forall Xs: true)) -> (~(finite($0(Xs, V0)) & (finite(V0))))
1 open exists V1: (V0 = g(V1, V0) & V1 = b); 1 else ~exists V1: (V0 = g(V1, V0) & V1 = b); \
    1 holds exists V1 V2: (V1 = g(V2, V1) & V2 = b & V0 = V1); 1 fails exists V1: (V1 = $1(V1) & V0 = V1) << \
    (g(b, V0) = V0) & forall V1 V0: (g($0(V0, V0), a) != b | a != V1)
1 open A9b != a | finite(V1) & A9b = a; 1 else A9b = a & ~finite(V1); \
    1 holds exists V0 V2: (V0 = $0(V0) & V2 = $1(V2) & V1 = V0 & A9b = V2); \
    1 fails exists V0 V2: (V0 = $0(V0) & V2 = a & V1 = V0 & A9b = V2) << \
    (((V1 != V1) | finite(V1))) | (f(g(A9b, A9b)) != A9b -> (A9b != a))
1 open ~exists V0: (L = f(V0) & V0 = g(L, L)); 1 else exists V0: (L = f(V0) & V0 = g(L, L)); \
    1 holds exists V0: (V0 = $0(V0) & L = V0); 1 fails exists V0 V1: (V0 = f(V1) & V1 = g(V0, V0) & L = V0) << \
    ((~(finite(a))) | (a = b -> g($2(L), f(L)) = $7)) & f(g(L, L)) != L
1 open ~finite(V0) | V0 = $0; 1 else finite(V0) & V0 != $0; 1 holds exists V1: (V1 = $1(V1) & V0 = V1); \
    1 fails exists V1: (V1 = $1 & V0 = V1) << ($0 = V0) | (finite(g(V0, V0)) -> V0 != V0)
1 open V1 = g(L, L) | L = $2 | finite(L); 1 else V1 != g(L, L) & L != $2 & ~finite(L); \
    1 holds exists V0 V2: (V0 = g(V2, V2) & V2 = $0(V2) & V1 = V0 & L = V2); \
    1 fails exists V0 V2: (V0 = $0(V0) & V2 = $3(V2) & V1 = V0 & L = V2) << \
    ((V1 = g(L, L) | (L = $2)) | ($1(a) != $7(L) <-> finite(L)))
1 open V1 != $7 & ~exists V0 V2: (V1 = f(V0) & V0 = g(V2, V1)); \
    1 else V1 = $7 | exists V0 V2: (V1 = f(V0) & V0 = g(V2, V1)); 1 holds exists V0: (V0 = $0(V0) & V1 = V0); \
    1 fails exists V0: (V0 = $7 & V1 = V0) << forall X: forall V0: ((f(g(V0, V1)) != V1) <-> V1 != $7)";

#[test]
fn random_open_formulas(rt: HostRuntime) -> Result<(), Fail> {
    let alloc = rt.alloc();
    for row in RANDOM.lines() {
        let (answer, formula) = row.split_once(" << ").ok_or("a row has two parts")?;
        let text = format!(in alloc; "symbol f/1, g/2, a/0, b/0. solve {formula}.")?;
        expect_outcome(&rt, alloc, text.as_bytes(), answer, formula)?;
    }
    Ok(())
}
