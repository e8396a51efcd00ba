use super::*;
use std::test::*;

struct Upward;

impl Steps for Upward {
    ghost use Rattle.std.specs.Prelude.{ℕ, ◌<◌};

    ghost Good = { λ v. v < 3 };

    ghost Leads = { λ u v. u < v };
}

#[test]
fn laws_can_be_called(_rt: HostRuntime) {
    equation_laws();
    table_laws();
    merging_laws();
    solution_laws();
    finite_laws();
    graph_laws();
    walk_laws();
    no_round_law::<Upward>();
    renumbering_laws();
    index_laws();
}
