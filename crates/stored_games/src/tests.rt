//! The texts, as the description of the games has them.
use crate::{game, game_names, stored_games_read};
use std::test::Fail;

const TAKE2: &str = "\
symbol s/1, z/0.
pred move(X, Y) := X = s(Y) | X = s(s(Y)).
solve win(move, 1, s(z)).
solve win(move, 1, s(s(s(z)))).
solve win(move, 2, s(s(s(s(z))))).
solve exists X: (X = s(X) & win(move, 3, X)).
solve win(move, 0, z).
";

const TWO_PILES: &str = "\
symbol p/2, s/1, z/0.
pred move(X, Y) := exists A B: (Y = p(A, B) & (X = p(s(A), B) | X = p(A, s(B)))).
solve win(move, 1, p(s(z), z)).
solve win(move, 1, p(s(z), s(z))).
solve exists X: (X = s(X) & win(move, 1, p(X, z))).
";

const UNROLL: &str = "\
symbol u/2, e/0.
pred move(X, Y) := exists A: (X = u(Y, A) | X = u(A, Y)).
solve win(move, 1, u(e, u(e, e))).
solve win(move, 1, u(u(e, e), u(e, e))).
solve exists X: (X = u(X, e) & win(move, 1, X)).
solve exists X: (X = u(X, X) & win(move, 2, X)).
";

#[test]
fn each_game_has_its_text(rt: HostRuntime) -> Result<(), Fail> {
    stored_games_read();
    let [first, second, third] = game_names();
    assert_eq!(rt; first, "take2");
    assert_eq!(rt; second, "two_piles");
    assert_eq!(rt; third, "unroll");
    assert_eq!(rt; game(first), Some(TAKE2));
    assert_eq!(rt; game(second), Some(TWO_PILES));
    assert_eq!(rt; game(third), Some(UNROLL));
    Ok(())
}

#[test]
fn another_name_has_none(rt: HostRuntime) -> Result<(), Fail> {
    for name in ["", "take", "take22", "Take2", "nim"] {
        assert_eq!(rt; game(name), None);
    }
    Ok(())
}
