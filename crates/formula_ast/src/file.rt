use crate::{Preds, Statements};
use signature::Signature;

/// What a text declares and asks: its names, its predicates and its statements to solve, each in their order.
#[derive(Debug, Drop)]
pub struct File {
    pub signature: Signature,
    pub preds: Preds,
    pub solves: Statements,
}
