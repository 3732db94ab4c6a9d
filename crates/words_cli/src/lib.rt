//! The words of the command line, as a command.
//!
//! The words are read by `clap`, as one command with a level of subcommands; its help and its version are
//! off. Numbers are read here, from the texts that `clap` gives. This crate knows nothing of what a command
//! does.
#![tactic(auto)]

mod command;
mod given;
mod line;
mod loads;
mod number;
mod read;
mod values;

pub use command::{Command, Draws, WordFault, Work};
pub use read::command_of;

#[cfg(test)]
mod tests;
