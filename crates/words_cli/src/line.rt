//! The command line, as `clap` is told of it.

ghost use Rattle.std.specs.Prelude.{◌≡◌, IfOk, map};
ghost use Rattle.clap.specs.Words.{app_of, with_subcommand};
ghost use Rattle.words_cli.specs.ClapLine.{IsLocal, bare_app, form_app, form_shape, line_app};
ghost use Rattle.words_cli.specs.Loads.{with_load};
ghost use Rattle.words_cli.specs.Table.{built_forms};

use clap::{Arg, ArgAction, Command};
use std::alloc::{AllocError, Global};

/// The id of the word that stands by itself.
pub(crate) const WORD: &str = "K";

/// One command: its name, its options, and whether one word may stand by itself.
fn form<'a>(
    alloc: Global,
    name: &'a str,
    options: &[&'a str],
    takes_word: bool,
) -> Result<Command<'a>, AllocError>
    ensures app { IfOk result (λ c. app_of c ≡ form_app (record { name = name.now; options = map (λ o. o.now) options.now; takes_word = takes_word })) }
    ensures local { IfOk result IsLocal }
{
    let mut command = Command::new(alloc, name);
    for &option in options {
        let arg = Arg::new(alloc, option).long(option).action(ArgAction::Set);
        command = command.arg(arg)?;
    }
    if takes_word {
        let arg = Arg::new(alloc, WORD).action(ArgAction::Set);
        command = command.arg(arg)?;
    }
    Ok(command)
}

/// The program, with no command yet.
fn bare<'a>(alloc: Global) -> Command<'a>
    ensures { app_of result ≡ bare_app }
{
    Command::new(alloc, "p4db")
        .no_binary_name(true)
        .disable_help_flag(true)
        .disable_help_subcommand(true)
        .disable_version_flag(true)
        .subcommand_required(true)
}

/// The line with one more command.
fn with_form<'a>(
    alloc: Global,
    line: Command<'a>,
    name: &'a str,
    options: &[&'a str],
    takes_word: bool,
) -> Result<Command<'a>, AllocError>
    ensures { IfOk result (λ c. app_of c ≡ with_subcommand (app_of line.entry) (form_shape (record { name = name.now; options = map (λ o. o.now) options.now; takes_word = takes_word }))) }
{
    let added = form(alloc, name, options, takes_word)?;
    line.subcommand(added)
}

/// The line with one more command, which takes a load.
fn with_load<'a>(alloc: Global, line: Command<'a>, name: &'a str) -> Result<Command<'a>, AllocError>
    ensures { IfOk result (λ c. app_of c ≡ with_subcommand (app_of line.entry) (form_shape (with_load name.now))) }
{
    let options = [
        "number",
        "clients",
        "scripts",
        "customers",
        "records",
        "hot",
        "share",
        "ops",
        "mix",
    ];
    with_form(alloc, line, name, &options, true)
}

/// The program's command line.
pub(crate) fn command_line<'a>(alloc: Global) -> Result<Command<'a>, AllocError>
    ensures { IfOk result (λ c. app_of c ≡ line_app built_forms) }
{
    let no_options: [&'a str; 0] = [];
    let run = with_form(alloc, bare(alloc), "run", &["draws", "number"], false)?;
    let race = with_form(alloc, run, "race", &["threads"], false)?;
    let recover = with_form(alloc, race, "recover", &no_options, false)?;
    let hot = with_form(alloc, recover, "hot", &no_options, true)?;
    let layout = with_form(alloc, hot, "layout", &no_options, true)?;
    let generate = with_load(alloc, layout, "gen")?;
    with_load(alloc, generate, "drive")
}
