//! The loads that `gen` and `drive` take.

ghost use Rattle.std.specs.Prelude.{◌≡◌, ◌≤◌, ◌*◌, codes, IfSome, nat_le, option_map};
ghost use Rattle.catalogue.specs.LoadPlans.{IsBankPlan, IsWithinPlans, IsYcsbPlan};
ghost use Rattle.clap.specs.Words.{first_of, found_of, rows_of};
ghost use Rattle.words_cli.specs.ClapLine.{values_in};
ghost use Rattle.words_cli.specs.Loads.{bank_of, bank_plan, mix_or, number_or, size_of, work_of, ycsb_of, ycsb_plan};
ghost use Rattle.words_cli.specs.Ranges.{IsWork};

use crate::command::Work;
use crate::given::{lacks, value_of};
use crate::line::WORD;
use crate::number::{number_in, within};
use catalogue::{BankPlan, Mix, YcsbPlan};
use clap::ArgMatches;

/// The most clients of a load.
const MOST_CLIENTS: u64 = 8;

/// The most scripts of all clients of a load together.
const MOST_SCRIPTS: u64 = 4_096;

/// The most customers of SmallBank.
const MOST_CUSTOMERS: u64 = 32_768;

/// The least and the most records of YCSB.
const LEAST_RECORDS: u64 = 16;

const MOST_RECORDS: u64 = 65_536;

/// The most operations of a script of YCSB.
const MOST_OPERATIONS: u64 = 16;

/// What both loads are given.
#[derive(Clone, Copy)]
pub(crate) struct Size {
    number: u64,
    clients: u8,
    scripts: u32,
    /// How many customers or records.
    keys: u32,
    hot: u32,
    share: u8,
}

/// The number of the option, or the other one where it isn't given; it is one from `least` to `most`.
fn number_of(given: &ArgMatches, name: &str, least: u64, most: u64, other: u64) -> Option<u64>
    ensures value { result ≡ number_or least most other (first_of name.now (rows_of (found_of given.now))) }
    ensures range { IfSome result (λ n. (least ≤ n) × (n ≤ most)) }
{
    match value_of(given, name) {
        Some(text) => number_in(text, least, most),
        None => within(other, least, most),
    }
}

/// Whether clients times scripts are within what a session has.
fn are_few(clients: u8, scripts: u32) -> bool
    ensures { result ≡ nat_le (clients * scripts) 4096 }
{
    clients as u64 * scripts as u64 <= MOST_SCRIPTS
}

/// What both loads are given, where the customers or records are these many.
fn size_of(given: &ArgMatches, keys: u32) -> Option<Size>
    ensures value { result ≡ size_of keys (values_in (rows_of (found_of given.now))) }
    ensures keys { IfSome result (λ size. size.keys ≡ keys) }
    ensures range { IfSome result (λ size. IsWithinPlans size.clients size.scripts size.keys size.hot size.share) }
{
    let number = number_of(given, "number", 0, u64::MAX, 1)?;
    let clients = number_of(given, "clients", 1, MOST_CLIENTS, 4)? as u8;
    let scripts = number_of(given, "scripts", 1, MOST_SCRIPTS, 100)? as u32;
    let hot = number_of(given, "hot", 0, keys as u64, 10)? as u32;
    let share = number_of(given, "share", 0, 100, 80)? as u8;
    if !are_few(clients, scripts) {
        return None;
    }
    Some(Size {
        number,
        clients,
        scripts,
        keys,
        hot,
        share,
    })
}

fn bank_plan(size: Size) -> BankPlan
    ensures { result ≡ bank_plan size }
{
    BankPlan {
        number: size.number,
        clients: size.clients,
        scripts: size.scripts,
        customers: size.keys,
        hot: size.hot,
        share: size.share,
    }
}

/// The load of SmallBank, where no option of the other load is given.
fn bank_of(given: &ArgMatches) -> Option<BankPlan>
    ensures value { result ≡ bank_of (values_in (rows_of (found_of given.now))) }
    ensures range { IfSome result IsBankPlan }
{
    let is_alone = lacks(given, "records") && lacks(given, "ops") && lacks(given, "mix");
    if !is_alone {
        return None;
    }
    let customers = number_of(given, "customers", 2, MOST_CUSTOMERS, 100)?;
    let size = size_of(given, customers as u32)?;
    Some(bank_plan(size))
}

/// The mix that the option names.
fn mix_of(given: &ArgMatches) -> Option<Mix>
    ensures { result ≡ mix_or (first_of (codes "mix") (rows_of (found_of given.now))) }
{
    match value_of(given, "mix") {
        None | Some("a") => Some(Mix::A),
        Some("b") => Some(Mix::B),
        Some("c") => Some(Mix::C),
        Some(_) => None,
    }
}

fn ycsb_plan(size: Size, ops: u8, mix: Mix) -> YcsbPlan
    ensures { result ≡ ycsb_plan size ops mix }
{
    YcsbPlan {
        number: size.number,
        clients: size.clients,
        scripts: size.scripts,
        records: size.keys,
        hot: size.hot,
        share: size.share,
        ops,
        mix,
    }
}

/// The load of YCSB, where no option of the other load is given.
fn ycsb_of(given: &ArgMatches) -> Option<YcsbPlan>
    ensures value { result ≡ ycsb_of (values_in (rows_of (found_of given.now))) }
    ensures range { IfSome result IsYcsbPlan }
{
    if !lacks(given, "customers") {
        return None;
    }
    let records = number_of(given, "records", LEAST_RECORDS, MOST_RECORDS, 100)?;
    let size = size_of(given, records as u32)?;
    let ops = number_of(given, "ops", 1, MOST_OPERATIONS, 4)? as u8;
    let mix = mix_of(given)?;
    Some(ycsb_plan(size, ops, mix))
}

fn bank_work(given: &ArgMatches) -> Option<Work>
    ensures value { result ≡ option_map Work.SmallBank (bank_of (values_in (rows_of (found_of given.now)))) }
    ensures range { IfSome result IsWork }
{
    let plan = bank_of(given)?;
    Some(Work::SmallBank(plan))
}

fn ycsb_work(given: &ArgMatches) -> Option<Work>
    ensures value { result ≡ option_map Work.Ycsb (ycsb_of (values_in (rows_of (found_of given.now)))) }
    ensures range { IfSome result IsWork }
{
    let plan = ycsb_of(given)?;
    Some(Work::Ycsb(plan))
}

/// The load that the word and the options name.
pub(crate) fn work_of(given: &ArgMatches) -> Option<Work>
    ensures value { result ≡ work_of (values_in (rows_of (found_of given.now))) }
    ensures range { IfSome result IsWork }
{
    match value_of(given, WORD)? {
        "smallbank" => bank_work(given),
        "ycsb" => ycsb_work(given),
        _ => None,
    }
}
