//! What each command makes of the values that it was given.

ghost use Rattle.std.specs.Prelude.{◌≡◌, ◌≤◌, codes, Some, None, IfSome, option_map};
ghost use Rattle.clap.specs.Words.{first_of, found_of, rows_of};
ghost use Rattle.words_cli.specs.ClapLine.{values_in};
ghost use Rattle.words_cli.specs.Loads.{work_of};
ghost use Rattle.words_cli.specs.Numbers.{number_in};
ghost use Rattle.words_cli.specs.Ranges.{InRange};
ghost use Rattle.words_cli.specs.Table.{command_by, count_of, draws_by, most_draws, most_threads, most_tuples, run_by, threads_of};

use crate::command::{Command, Draws};
use crate::given::value_of;
use crate::line::WORD;
use crate::loads::work_of;
use crate::number::number_in;
use clap::ArgMatches;

/// The most actors that are drawn.
const MOST_DRAWS: u64 = 1_000_000;

/// The most threads of a race.
const MOST_THREADS: u64 = 8;

/// The most tuples that `hot` and `layout` take.
const MOST_TUPLES: u64 = 65_536;

/// What a schedule is drawn from, by the two options.
fn draws_in(count: &str, number: &str) -> Option<Draws>
    ensures value { result ≡ draws_by count.now number.now }
    ensures range { IfSome result (λ draws. draws.count ≤ most_draws) }
{
    let count = number_in(count, 0, MOST_DRAWS)?;
    let number = number_in(number, 0, u64::MAX)?;
    Some(Draws {
        count: count as u32,
        number,
    })
}

/// A run with drawn actors.
fn drawn_run(count: &str, number: &str) -> Option<Command>
    ensures value { result ≡ run_by (Some count.now) (Some number.now) }
    ensures range { IfSome result InRange }
{
    let draws = draws_in(count, number)?;
    Some(Command::Run { draws: Some(draws) })
}

/// `run` takes both of its options, or neither.
fn run(given: &ArgMatches) -> Option<Command>
    ensures value { result ≡ run_by (first_of (codes "draws") (rows_of (found_of given.now))) (first_of (codes "number") (rows_of (found_of given.now))) }
    ensures range { IfSome result InRange }
{
    let count = value_of(given, "draws");
    let number = value_of(given, "number");
    match (count, number) {
        (None, None) => Some(Command::Run { draws: None }),
        (Some(count), Some(number)) => drawn_run(count, number),
        _ => None,
    }
}

fn race(given: &ArgMatches) -> Option<Command>
    ensures value { result ≡ option_map Command.Race (threads_of (first_of (codes "threads") (rows_of (found_of given.now)))) }
    ensures range { IfSome result InRange }
{
    let text = value_of(given, "threads")?;
    let threads = number_in(text, 1, MOST_THREADS)?;
    Some(Command::Race {
        threads: threads as u8,
    })
}

/// How many tuples are wanted, by the word that stands by itself.
fn count_of(given: &ArgMatches) -> Option<u32>
    ensures value { result ≡ count_of (first_of (codes "K") (rows_of (found_of given.now))) }
    ensures range { IfSome result (λ k. k ≤ most_tuples) }
{
    let text = value_of(given, WORD)?;
    let count = number_in(text, 0, MOST_TUPLES)?;
    Some(count as u32)
}

fn hot(given: &ArgMatches) -> Option<Command>
    ensures value { result ≡ option_map Command.Hot (count_of (first_of (codes "K") (rows_of (found_of given.now)))) }
    ensures range { IfSome result InRange }
{
    let k = count_of(given)?;
    Some(Command::Hot { k })
}

fn layout(given: &ArgMatches) -> Option<Command>
    ensures value { result ≡ option_map Command.Layout (count_of (first_of (codes "K") (rows_of (found_of given.now)))) }
    ensures range { IfSome result InRange }
{
    let k = count_of(given)?;
    Some(Command::Layout { k })
}

fn generate(given: &ArgMatches) -> Option<Command>
    ensures value { result ≡ option_map Command.Gen (work_of (values_in (rows_of (found_of given.now)))) }
    ensures range { IfSome result InRange }
{
    let work = work_of(given)?;
    Some(Command::Gen(work))
}

fn drive(given: &ArgMatches) -> Option<Command>
    ensures value { result ≡ option_map Command.Drive (work_of (values_in (rows_of (found_of given.now)))) }
    ensures range { IfSome result InRange }
{
    let work = work_of(given)?;
    Some(Command::Drive(work))
}

/// What the command of this name makes of what it was given.
pub(crate) fn command_by(name: &str, given: &ArgMatches) -> Option<Command>
    ensures value { result ≡ command_by name.now (values_in (rows_of (found_of given.now))) }
    ensures ranges { IfSome result InRange }
{
    match name {
        "run" => run(given),
        "race" => race(given),
        "recover" => Some(Command::Recover),
        "hot" => hot(given),
        "layout" => layout(given),
        "gen" => generate(given),
        "drive" => drive(given),
        _ => None,
    }
}
