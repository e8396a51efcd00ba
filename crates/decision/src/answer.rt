use formula_ast::Statement;
use tree_model::Assignment;

/// What is answered of a statement.
#[derive(Debug, Drop)]
pub enum Answer {
    /// Every valuation satisfies it.
    True,
    /// No valuation satisfies it.
    False,
    /// Some valuation satisfies it, and some does not.
    Open {
        /// Its explicit solved form.
        formula: Statement,
        /// That of its negation.
        complement: Statement,
        /// Trees for its free variables, by rank, that satisfy it.
        holds: Assignment,
        /// Trees that do not.
        fails: Assignment,
    },
}
