use term_graph::Mark;

// Where a scope was opened: the length of the trail, and how many terms had owners.
#[derive(Clone, Copy, Drop)]
pub(crate) struct Floor {
    pub(crate) mark: Mark,
    pub(crate) owners: usize,
}
