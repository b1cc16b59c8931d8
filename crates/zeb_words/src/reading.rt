//! What the parser's matches name.

ghost use Rattle.std.specs.Prelude.{◌≡◌, ◌≢◌, IfErr, IfOk, IfNone, IfSome, List, false, [], codes, map, string_bytes, unwrap_or};
ghost use Rattle.clap.specs.Walk.{Row, all_of, one_of, rows_of};
ghost use Rattle.clap.specs.Simple.{subcommand_rows_of};
ghost use Rattle.clap.specs.Matches.{found_of};
ghost use Rattle.zeb_image.specs.NameOf.{name_bytes};
ghost use Rattle.zeb_words.specs.Misuses.{IsMisuseOf};
ghost use Rattle.zeb_words.specs.Parses.{IsChoiceRead, IsPast, IsActRead, IsNumberRead, IsReadFrom, path_texts, text_or};
ghost use Rattle.zeb_words.specs.PrivateParses.{IsMisusedAct, IsMisusedName, IsNoBareCommand, Misuses};
ghost use Rattle.zeb_words.specs.declared.misuses.Misuse.TheVariants.{PastNumber};

use crate::misuses::Misuse;
use crate::words::{Act, LayoutChoice, Usage, Words};
use clap::ArgMatches;
use std::alloc::{AllocError, Global};
use zeb_image::DbName;

/// The profile's file where `-c` names none.
const CONFIG: &str = "zebra.cfg";

/// The database where `-d` names none.
const DATABASE: &str = "Default";

/// What the program's options and its command name.
pub(crate) fn words_of(alloc: Global, matches: &ArgMatches<'_>) -> Result<Words, Usage>
    ensures value { IfOk result (IsReadFrom (rows_of (found_of matches.now))
        (subcommand_rows_of matches.now)) }
    ensures why { IfErr result (Misuses (λ misuse. IsMisuseOf misuse
        (rows_of (found_of matches.now)) (subcommand_rows_of matches.now))) }
{
    let config = String::from_str(alloc, text_of(matches, "config", CONFIG))?;
    let database = name_of(text_of(matches, "database", DATABASE))?;
    let shows = matches.get_flag("shows");
    let Some((name, given)) = matches.subcommand() else {
        return Err(Usage::BadUsage(Misuse::NoCommand));
    };
    let act = act_of(alloc, name, shows, given)?;
    Ok(Words {
        config,
        database,
        act,
    })
}

/// What the command of this name is, with its arguments.
fn act_of(alloc: Global, name: &str, shows: bool, given: &ArgMatches<'_>) -> Result<Act, Usage>
    ensures value { IfOk result (IsActRead name.now shows (rows_of (found_of given.now))) }
    ensures why { IfErr result (Misuses (λ misuse. IsMisusedAct misuse name.now shows
        (rows_of (found_of given.now)))) }
{
    match name {
        "update" => Ok(Act::Update {
            paths: paths_of(alloc, given)?,
            shows,
        }),
        _ if shows => Err(Usage::BadUsage(Misuse::ShowsElsewhere)),
        _ => other_act(alloc, name, given),
    }
}

/// What another command than `update` is, with its arguments.
fn other_act(alloc: Global, name: &str, given: &ArgMatches<'_>) -> Result<Act, Usage>
    requires { name.now ≢ codes "update" }
    ensures value { IfOk result (IsActRead name.now false (rows_of (found_of given.now))) }
    ensures why { IfErr result (Misuses (λ misuse. IsMisusedAct misuse name.now false
        (rows_of (found_of given.now)))) }
{
    match name {
        "init" => Ok(Act::Init(choice_of(given))),
        "create" => Ok(Act::Create(named(given)?)),
        "drop" => Ok(Act::Drop(named(given)?)),
        "delete" => Ok(Act::Delete(paths_of(alloc, given)?)),
        "adelete" => Ok(Act::Adelete(paths_of(alloc, given)?)),
        "upgrade" => Ok(Act::Upgrade(choice_of(given))),
        "find" => found(alloc, given),
        "scan" => scanned(alloc, given),
        _ => bare_act(name).ok_or(Usage::BadUsage(Misuse::NoCommand)),
    }
}

/// The command of this name that has no arguments, if there is one.
fn bare_act(name: &str) -> Option<Act>
    ensures value { IfSome result (λ act. (rows : List Row) → IsActRead name.now false rows act) }
    ensures none { IfNone result (IsNoBareCommand name.now) }
{
    match name {
        "stat" => Some(Act::Stat),
        "dump" => Some(Act::Dump),
        "check" => Some(Act::Check),
        "reindex" => Some(Act::Reindex),
        "batch" => Some(Act::Batch),
        "shell" => Some(Act::Shell),
        _ => None,
    }
}

/// The layout that `init` and `upgrade` ask for.
fn choice_of(given: &ArgMatches<'_>) -> LayoutChoice
    ensures { IsChoiceRead (one_of (codes "leaves") (rows_of (found_of given.now))) result }
{
    if given.get_flag("leaves") {
        return LayoutChoice::Leaves;
    }
    LayoutChoice::Unsaid
}

/// The text that is given for an option or an argument, or another where none is.
fn text_of<'a>(given: &ArgMatches<'a>, name: &str, other: &'a str) -> &'a str
    ensures { result.now ≡ text_or name.now other.now (rows_of (found_of given.now)) }
{
    given.get_str(name).unwrap_or(other)
}

/// The number that is given for an option, or another where none is.
fn number_of(given: &ArgMatches<'_>, name: &str, other: u32) -> u32
    ensures { IsNumberRead (one_of name.now (rows_of (found_of given.now))) other result }
{
    given.get_one::<u32>(name).unwrap_or(other)
}

/// The name that the text is.
fn name_of(text: &str) -> Result<DbName, Usage>
    ensures value { IfOk result (λ name. name_bytes name ≡ text.now) }
    ensures why { IfErr result (Misuses (IsMisusedName text.now)) }
{
    DbName::read(text).ok_or(Usage::BadUsage(Misuse::Name))
}

/// The name of `create` and `drop`.
fn named(given: &ArgMatches<'_>) -> Result<DbName, Usage>
    ensures value { IfOk result (λ name. name_bytes name ≡ text_or (codes "name") []
        (rows_of (found_of given.now))) }
    ensures why { IfErr result (Misuses (IsMisusedName
        (text_or (codes "name") [] (rows_of (found_of given.now))))) }
{
    name_of(text_of(given, "name", ""))
}

/// The paths of `update`, `delete` and `adelete`.
fn paths_of(alloc: Global, given: &ArgMatches<'_>) -> Result<Vec<String>, AllocError>
    ensures { IfOk result (λ paths. path_texts paths.items ≡ unwrap_or
        (all_of (codes "path") (rows_of (found_of given.now))) []) }
{
    match given.get_strs("path") {
        Some(texts) => texts_of(alloc, texts),
        None => Ok(Vec::new(alloc)),
    }
}

/// The texts, each in memory of its own.
fn texts_of(alloc: Global, texts: &[&str]) -> Result<Vec<String>, AllocError>
    ensures { IfOk result (λ copies. path_texts copies.items ≡ map (λ text. text.now) texts.now) }
{
    let mut copies = Vec::new(alloc);
    for text in texts {
        copies.push(String::from_str(alloc, text)?)?;
    }
    Ok(copies)
}

/// The query of `find` and `scan`.
fn query_of(alloc: Global, given: &ArgMatches<'_>) -> Result<String, AllocError>
    ensures { IfOk result (λ query. string_bytes query ≡ text_or (codes "query") []
        (rows_of (found_of given.now))) }
{
    String::from_str(alloc, text_of(given, "query", ""))
}

/// The command `find`.
fn found(alloc: Global, given: &ArgMatches<'_>) -> Result<Act, Usage>
    ensures value { IfOk result (IsActRead (codes "find") false (rows_of (found_of given.now))) }
    ensures why { IfErr result (Misuses (λ _. ⊥)) }
{
    let first = number_of(given, "first", 1);
    let count = number_of(given, "count", 20);
    let query = query_of(alloc, given)?;
    Ok(Act::Find {
        query,
        first,
        count,
    })
}

/// The command `scan`.
fn scanned(alloc: Global, given: &ArgMatches<'_>) -> Result<Act, Usage>
    ensures value { IfOk result (IsActRead (codes "scan") false (rows_of (found_of given.now))) }
    ensures why { IfErr result (Misuses (λ misuse. (misuse ≡ PastNumber)
        × IsPast (rows_of (found_of given.now)))) }
{
    let number = number_of(given, "number", 20);
    let position = number_of(given, "position", 1);
    if number < position {
        return Err(Usage::BadUsage(Misuse::PastNumber));
    }
    let query = query_of(alloc, given)?;
    Ok(Act::Scan {
        query,
        number,
        position,
    })
}
