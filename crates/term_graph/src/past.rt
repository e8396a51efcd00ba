//! What a call did.
ghost use Rattle.std.specs.Prelude.{◌≡◌};
ghost use Rattle.term_graph.specs.Told.{past_of};

use crate::Bound;
use crate::change::Change;

/// What a call did to the graph, with what a reader of earlier contents needs of those before it.
#[derive(Clone, Copy, Debug, PartialEq, Eq, Drop)]
pub enum Past {
    /// One more variable.
    Added,
    /// One more term.
    Interned,
    /// The variable, which was free, was bound to a term.
    Termed(usize),
    /// The variable, a root, was bound to a variable with another root: what it was bound to before, and the least
    /// variables that had the one and the other root.
    Joined {
        variable: usize,
        root: usize,
        before: Bound,
        least: usize,
        root_least: usize,
    },
    /// The variable was marked.
    Marked(usize),
}

/// What the change did.
pub fn tell(change: Change) -> Past
    ensures { result ≡ past_of change }
{
    match change {
        Change::Added => Past::Added,
        Change::Interned => Past::Interned,
        Change::Termed(v) => Past::Termed(v),
        Change::Joined(join) => Past::Joined {
            variable: join.variable,
            root: join.root,
            before: join.before,
            least: join.class.least,
            root_least: join.root_class.least,
        },
        Change::Marked(v) => Past::Marked(v),
    }
}
