//! Systems of flat equations among the rational trees: when they hold, how graphs are put side by side, that a system
//! with distinct left sides has exactly one solution for each choice of its parameters, and which of its variables are
//! finite. Finite trees are those in which no walk comes round; finitely many trees leave an index unused.
#![tactic(auto)]

mod laws;

pub use laws::{
    Steps, equation_laws, finite_laws, graph_laws, index_laws, merging_laws, no_round_law,
    renumbering_laws, solution_laws, table_laws, walk_laws,
};

#[cfg(test)]
mod tests;
