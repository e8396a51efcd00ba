//! What the trail keeps of a call.
use crate::Bound;
use crate::class::Class;
use index_lists::Cut;

/// A root that went under another, and what was kept of the two classes.
#[derive(Clone, Copy)]
pub struct Join {
    pub variable: usize,
    pub root: usize,
    pub before: Bound,
    pub class: Class,
    pub root_class: Class,
    pub cut: Cut,
    pub keys: usize,
    pub lowered: usize,
}

#[derive(Clone, Copy)]
pub enum Change {
    Added,
    Interned,
    Termed(usize),
    Joined(Join),
    Marked(usize),
}
