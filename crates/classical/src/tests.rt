use super::*;
use std::test::*;

struct Example;

impl Facts for Example {
    ghost use Rattle.std.specs.Prelude.{◌≡◌, ℕ};

    ghost first = { ℕ };

    ghost second = { ⊥ };

    ghost Item = { ℕ };

    ghost each = { λ n. n ≡ 0 };
}

#[test]
fn laws_can_be_called(_rt: HostRuntime) {
    stable_laws::<Example>();
}
