//! The stored games: their names, and the text of each.
#![tactic(auto)]

mod games;
mod laws;
#[cfg(test)]
mod tests;

pub use games::{game, game_names};
pub use laws::stored_games_read;
