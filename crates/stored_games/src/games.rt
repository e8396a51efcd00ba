// The names and the texts.
ghost use Rattle.std.specs.Prelude.{◌≡◌, map, option_copied};
ghost use Rattle.stored_games.specs.Games.{game_names, game_text};

const TAKE2: &str = "\
symbol s/1, z/0.
pred move(X, Y) := X = s(Y) | X = s(s(Y)).
solve win(move, 1, s(z)).
solve win(move, 1, s(s(s(z)))).
solve win(move, 2, s(s(s(s(z))))).
solve exists X: (X = s(X) & win(move, 3, X)).
solve win(move, 0, z).
";

const TWO_PILES: &str = "\
symbol p/2, s/1, z/0.
pred move(X, Y) := exists A B: (Y = p(A, B) & (X = p(s(A), B) | X = p(A, s(B)))).
solve win(move, 1, p(s(z), z)).
solve win(move, 1, p(s(z), s(z))).
solve exists X: (X = s(X) & win(move, 1, p(X, z))).
";

const UNROLL: &str = "\
symbol u/2, e/0.
pred move(X, Y) := exists A: (X = u(Y, A) | X = u(A, Y)).
solve win(move, 1, u(e, u(e, e))).
solve win(move, 1, u(u(e, e), u(e, e))).
solve exists X: (X = u(X, e) & win(move, 1, X)).
solve exists X: (X = u(X, X) & win(move, 2, X)).
";

/// The names of the stored games.
#[tactic(auto, unfolding(crate::specs::Games::game_names))]
pub fn game_names() -> [&'static str; 3]
    ensures { map (λ name. name.now) result ≡ game_names }
{
    ["take2", "two_piles", "unroll"]
}

/// The text of the stored game with this name.
pub fn game(name: &str) -> Option<&'static str>
    ensures { option_copied result ≡ game_text name.now }
{
    match name {
        "take2" => Some(TAKE2),
        "two_piles" => Some(TWO_PILES),
        "unroll" => Some(UNROLL),
        _ => None,
    }
}
