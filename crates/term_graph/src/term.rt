//! Terms.

use flat_form::Args;
use tree_model::Symbol;

/// A symbol with the variables that its arguments had as roots when it was made.
#[derive(Drop)]
pub struct Term {
    pub symbol: Symbol,
    pub args: Args,
}
