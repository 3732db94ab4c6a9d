//! The words, read.

ghost use Rattle.std.specs.Prelude.{◌≡◌, ◌≢◌, Err, IfOk, IfSome, IsUtf8, None, option_map, option_and_then};
ghost use Rattle.std.specs.List.{AllByRecursion};
ghost use Rattle.clap.specs.Words.{app_of, kind_of, subcommand_rows_of};
ghost use Rattle.words_cli.specs.Answers.{Answers};
ghost use Rattle.words_cli.specs.ClapLine.{line_app, line_rows, values_in};
ghost use Rattle.words_cli.specs.Forms.{line_of};
ghost use Rattle.words_cli.specs.Ranges.{InRange};
ghost use Rattle.words_cli.specs.Table.{built_forms, command_by, command_of};

use crate::command::{Command, WordFault};
use crate::line::command_line;
use crate::values::command_by;
use clap::error::ErrorKind;
use clap::{ArgMatches, Command as Line, Error};
use port_io::Word;
use std::alloc::Global;

/// Looks at each word, which is a text.
fn look_at(words: &[Word])
    ensures { AllByRecursion IsUtf8 words.now }
{
    for word in words {
        let _ = word.as_str();
    }
}

/// Why `clap` refuses words.
fn fault_of(error: &Error) -> WordFault
    ensures { result ≡ WordFault.Usage → kind_of error.now ≢ ErrorKind.OutOfMemory }
{
    match error.kind() {
        ErrorKind::OutOfMemory => WordFault::NoMemory,
        _ => WordFault::Usage,
    }
}

/// What `clap` makes of the words, which are texts.
fn parsed<'a>(line: Line<'a>, words: &'a [Word]) -> Result<ArgMatches<'a>, WordFault>
    requires told { app_of line ≡ line_app built_forms }
    requires texts { AllByRecursion IsUtf8 words.now }
    ensures ok { IfOk result (λ m. subcommand_rows_of m ≡ option_map line_rows (line_of built_forms words.now)) }
    ensures usage { result ≡ Err WordFault.Usage → line_of built_forms words.now ≡ None }
{
    match line.try_get_matches_from(words) {
        Ok(matches) => Ok(matches),
        Err(error) => Err(fault_of(&error)),
    }
}

/// What `clap` makes of the words.
fn matches_of<'a>(alloc: Global, words: &'a [Word]) -> Result<ArgMatches<'a>, WordFault>
    ensures ok { IfOk result (λ m. subcommand_rows_of m ≡ option_map line_rows (line_of built_forms words.now)) }
    ensures usage { result ≡ Err WordFault.Usage → line_of built_forms words.now ≡ None }
{
    look_at(words);
    match command_line(alloc) {
        Ok(line) => parsed(line, words),
        Err(_) => Err(WordFault::NoMemory),
    }
}

/// The command that the matches name.
fn command_in(matches: &ArgMatches) -> Option<Command>
    ensures ranges { IfSome result InRange }
    ensures value { result ≡ option_and_then (λ s. command_by s.0 (values_in s.1)) (subcommand_rows_of matches.now) }
{
    match matches.subcommand() {
        Some(found) => command_by(found.0, found.1),
        None => None,
    }
}

fn answer(command: Option<Command>) -> Result<Command, WordFault>
    ensures { Answers command result }
{
    match command {
        Some(command) => Ok(command),
        None => Err(WordFault::Usage),
    }
}

/// The command that the words behind the program's name are.
///
/// # Errors
/// `Usage` exactly where the words are no command; `NoMemory`.
pub fn command_of(alloc: Global, words: &[Word]) -> Result<Command, WordFault>
    ensures value { Answers (command_of words.now) result }
    ensures ranges { IfOk result InRange }
{
    match matches_of(alloc, words) {
        Ok(matches) => answer(command_in(&matches)),
        Err(fault) => Err(fault),
    }
}
