//! The words by which schedules name actors, and what is drawn from a number: schedules and keys.
#![tactic(auto)]

mod actors;
mod dice;
mod word;

pub use actors::drawn;
pub use dice::Dice;
pub use word::{actor_of, words_name_actors};

#[cfg(test)]
mod tests;
