use flat_form::{Basic, Cubes};

/// A branch of a tree in which each stands before its parts: how many variables it binds, its atoms, how many parts it has,
/// the place behind the last branch in it, and its list once it has one.
#[derive(Debug, Drop)]
pub struct Slot {
    pub bound: usize,
    pub basic: Basic,
    pub parts: usize,
    pub end: usize,
    pub list: Option<Cubes>,
}
