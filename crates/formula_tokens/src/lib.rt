//! Reading: the tokens of a text, one at a time.
#![tactic(auto)]

mod tokens;

pub use formula_ast::{Token, TokenKind};
pub use tokens::next_token;
