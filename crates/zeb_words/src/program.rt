//! The program's options and commands, as `clap` is told of them.

ghost use Rattle.std.specs.Prelude.{◌≡◌, IfOk, Some, false};
ghost use Rattle.std.specs.Result.{IsOkAnd};
ghost use Rattle.clap.specs.Simple.{app_of, new_app, new_rule};
ghost use Rattle.clap.specs.Walk.{rule_of};
ghost use Rattle.clap.specs.declared.builder.command.Command.TheViews.{out-Command};
ghost use Rattle.zeb_words.specs.Parses.{and_sub, changes_app, changing_app, find_app, founding_app, leaves_rule, naming_app, program_app, query_rule, scan_app, shows_rule, top_app, upkeep_app, version_rule};

use clap::builder::ValueParser;
use clap::{Arg, ArgAction, Command, value_parser};
use std::alloc::{AllocError, Global};

/// The version, which the file VERSION of the repository names: tools/quick compares them.
const VERSION: &str = "0.1.0";

/// What the program does, and what its statuses say.
const ABOUT: &str =
    "Indexes MARC 21 records and searches them. Without a word it runs the script on the standard input.
Its status: 0 answered, 1 refused, 2 not understood, 3 something failed.";

/// A command, where there was memory for it.
type Made<'a> = Result<Command<'a>, AllocError>;

/// The program, with its options and its fifteen commands.
pub(crate) fn program<'a>(alloc: Global) -> Made<'a>
    ensures { IfOk result (λ command. app_of command ≡ program_app) }
{
    let made = with_upkeep(alloc);
    let made = with_plain(made, alloc, "stat", "Count records, terms and occurrences");
    let made = with_plain(made, alloc, "dump", "Write the kept records");
    let made = with_command(made, finding(alloc));
    let made = with_command(made, scanning(alloc));
    let made = with_plain(made, alloc, "batch", "Run the lines of the standard input");
    with_plain(
        made,
        alloc,
        "shell",
        "Run each line of the standard input as it comes",
    )
}

/// The program with its options, the commands that change records, and those that look after the whole register.
fn with_upkeep<'a>(alloc: Global) -> Made<'a>
    ensures { IfOk result (λ command. app_of command ≡ upkeep_app) }
{
    let made = with_changes(alloc);
    let made = with_plain(made, alloc, "check", "Compare the tables with the records");
    let made = with_plain(
        made,
        alloc,
        "reindex",
        "Make the registers anew under the profile",
    );
    let upgrade = founding(
        alloc,
        "upgrade",
        "Bring an earlier register into today's format",
    );
    with_command(made, upgrade)
}

/// The program with its options and the commands that change records.
fn with_changes<'a>(alloc: Global) -> Made<'a>
    ensures { IfOk result (λ command. app_of command ≡ changes_app) }
{
    let made = with_options(alloc);
    let made = with_command(
        made,
        founding(alloc, "init", "Begin or empty the whole register"),
    );
    let made = with_command(made, naming(alloc, "create", "Make a database"));
    let made = with_command(made, naming(alloc, "drop", "Take a database away"));
    let made = with_command(made, changing(alloc, "update", "Add or replace records"));
    let made = with_command(made, changing(alloc, "delete", "Take records away"));
    with_command(
        made,
        changing(alloc, "adelete", "Take records away that are kept"),
    )
}

/// The program with this command too, where there was memory for both.
fn with_command<'a>(program: Made<'a>, command: Made<'a>) -> Made<'a>
    requires { IfOk command (λ it. (out-Command it).has_globals ≡ false) }
    ensures { IfOk result (λ it. IsOkAnd program.entry (λ whole. IsOkAnd command.entry
        (λ added. app_of it ≡ and_sub (app_of whole) (app_of added)))) }
{
    program?.subcommand(command?)
}

/// The program with this command, which takes no argument, too.
fn with_plain<'a>(program: Made<'a>, alloc: Global, name: &'a str, about: &'a str) -> Made<'a>
    ensures { IfOk result (λ it. IsOkAnd program.entry
        (λ whole. app_of it ≡ and_sub (app_of whole) (new_app name.entry.now))) }
{
    with_command(program, Ok(plain(alloc, name, about)))
}

/// The program with its options, and no command yet.
fn with_options<'a>(alloc: Global) -> Made<'a>
    ensures { IfOk result (λ command. app_of command ≡ top_app) }
{
    Command::new(alloc, "zebraidx")
        .bin_name("zebraidx")?
        .about(ABOUT)
        .version(VERSION)
        .no_binary_name(true)
        .subcommand_required(true)
        .disable_help_subcommand(true)
        .disable_version_flag(true)
        .arg(option(
            alloc,
            "config",
            'c',
            "FILE",
            "The profile's file (zebra.cfg)",
        ))?
        .arg(option(alloc, "database", 'd', "NAME", "The database (Default)"))?
        .arg(shows(alloc))?
        .arg(version(alloc))
}

/// The option of this letter with a value.
fn option<'a>(alloc: Global, name: &'a str, letter: char, value: &'a str, help: &'a str) -> Arg<'a>
    ensures rule { rule_of result ≡ record (new_rule name.entry.now)
        { short = Some letter; value_names = 1 } }
    ensures local { result.global ≡ false }
{
    Arg::new(alloc, name)
        .short(letter)
        .value_name(value)
        .help(help)
}

/// The flag `-s`.
fn shows<'a>(alloc: Global) -> Arg<'a>
    ensures rule { rule_of result ≡ shows_rule }
    ensures local { result.global ≡ false }
{
    Arg::new(alloc, "shows")
        .short('s')
        .action(ArgAction::SetTrue)
        .help("With update: show the records' occurrences and change nothing")
}

/// The flag `--version`, which has no letter: the parser's own flag would take `-V`.
fn version<'a>(alloc: Global) -> Arg<'a>
    ensures rule { rule_of result ≡ version_rule }
    ensures local { result.global ≡ false }
{
    Arg::new(alloc, "version")
        .long("version")
        .action(ArgAction::Version)
        .help("Print version")
}

/// A command without arguments.
fn plain<'a>(alloc: Global, name: &'a str, about: &'a str) -> Command<'a>
    ensures app { app_of result ≡ new_app name.entry.now }
    ensures local { (out-Command result).has_globals ≡ false }
{
    Command::new(alloc, name).about(about)
}

/// A command that may ask for a layout.
fn founding<'a>(alloc: Global, name: &'a str, about: &'a str) -> Made<'a>
    ensures app { IfOk result (λ command. app_of command ≡ founding_app name.entry.now) }
    ensures local { IfOk result (λ command. (out-Command command).has_globals ≡ false) }
{
    plain(alloc, name, about).arg(leaves(alloc))
}

/// The flag `--leaves`.
fn leaves<'a>(alloc: Global) -> Arg<'a>
    ensures rule { rule_of result ≡ leaves_rule }
    ensures local { result.global ≡ false }
{
    Arg::new(alloc, "leaves")
        .long("leaves")
        .action(ArgAction::SetTrue)
        .help("In leaves: many keys in one row")
}

/// A command that takes the name of a database.
fn naming<'a>(alloc: Global, name: &'a str, about: &'a str) -> Made<'a>
    ensures app { IfOk result (λ command. app_of command ≡ naming_app name.entry.now) }
    ensures local { IfOk result (λ command. (out-Command command).has_globals ≡ false) }
{
    let database = Arg::new(alloc, "name")
        .value_name("NAME")
        .required(true)
        .help("Of the database: ASCII letters, digits, '-', '_' and '.'");
    plain(alloc, name, about).arg(database)
}

/// A command that takes one path or more.
fn changing<'a>(alloc: Global, name: &'a str, about: &'a str) -> Made<'a>
    ensures app { IfOk result (λ command. app_of command ≡ changing_app name.entry.now) }
    ensures local { IfOk result (λ command. (out-Command command).has_globals ≡ false) }
{
    let paths = Arg::new(alloc, "path")
        .value_name("PATH")
        .action(ArgAction::Append)
        .required(true)
        .help("A file of records in ISO 2709, or a folder of such files");
    plain(alloc, name, about).arg(paths)
}

/// The command `find`.
fn finding<'a>(alloc: Global) -> Made<'a>
    ensures app { IfOk result (λ command. app_of command ≡ find_app) }
    ensures local { IfOk result (λ command. (out-Command command).has_globals ≡ false) }
{
    let first = number(
        alloc,
        "first",
        value_parser!(u32).range(1..=999_999_999),
        "The first record to show, from 1 (1)",
    );
    let count = number(
        alloc,
        "count",
        value_parser!(u32).range(0..=1_000_000),
        "The most records to show (20)",
    );
    plain(alloc, "find", "Show the records that a query finds")
        .arg(first)?
        .arg(count)?
        .arg(query(alloc))
}

/// The command `scan`.
fn scanning<'a>(alloc: Global) -> Made<'a>
    ensures app { IfOk result (λ command. app_of command ≡ scan_app) }
    ensures local { IfOk result (λ command. (out-Command command).has_globals ≡ false) }
{
    let terms = number(
        alloc,
        "number",
        value_parser!(u32).range(1..=1000),
        "The most terms to show (20)",
    );
    let position = number(
        alloc,
        "position",
        value_parser!(u32).range(1..=1000),
        "The start's place among them, from 1 (1)",
    );
    plain(alloc, "scan", "Show the terms around a query's")
        .arg(terms)?
        .arg(position)?
        .arg(query(alloc))
}

/// The option `--name` with a whole number.
fn number<'a>(alloc: Global, name: &'a str, parser: ValueParser<'a>, help: &'a str) -> Arg<'a>
    ensures rule { rule_of result
        ≡ record (new_rule name.entry.now) {
          long = Some name.entry.now;
          value_names = 1;
          parser =
              Some parser.entry;
        } }
    ensures local { result.global ≡ false }
{
    Arg::new(alloc, name)
        .long(name)
        .value_name("NUMBER")
        .value_parser(parser)
        .help(help)
}

/// The word of a query.
fn query<'a>(alloc: Global) -> Arg<'a>
    ensures rule { rule_of result ≡ query_rule }
    ensures local { result.global ≡ false }
{
    Arg::new(alloc, "query")
        .value_name("QUERY")
        .required(true)
        .help(
            "In Prefix Query Format, as one word: '@attr 1=4 whale', '@and moby @attr 1=1003 melville'",
        )
}
