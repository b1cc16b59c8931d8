//! The lines of a batch, each of which names a command.

ghost use Rattle.std.specs.Prelude.{◌≢◌, IfOk, MatchOption, string_bytes};
ghost use Rattle.zeb_engine.specs.declared.commands.Command.{Command};
ghost use Rattle.zeb_program.specs.Batches.{Names, HasFind, HasMark, HasPage, HasScan, NamesMark, kind_word};
ghost use Rattle.zeb_program.specs.PrivateBatches.{IsFind, IsPage, IsScan, SaysChange};
ghost use Rattle.zeb_program.specs.Words.{first_word};
ghost use Rattle.zeb_change.specs.declared.settings.Kind.{Kind};

use crate::digits::bytes_of_file;
use crate::numbers::number_of;
use crate::path_changes::{PathChange, kind_of};
use crate::words::{cut_word, without_blanks};
use std::alloc::{AllocError, Global};
use zeb_engine::{Command, DbName, Kind};

/// How many records a `find` line shows at most.
const SHOWN: u32 = 20;

/// How many records a page shows at most.
const PAGED: u32 = 1_000_000;

/// How many terms a scan shows at most.
const TERMS: u32 = 1_000;

/// What a line of a batch says.
#[derive(Drop)]
pub enum Line {
    /// Nothing: it is empty or begins with `#`.
    Remark,
    Command(Command),
    /// A change by the path of its file.
    Path(PathChange),
    /// To write this text, by which a front end sees that the lines before are answered.
    Mark(String),
    /// Something that is no command.
    Bad,
}

impl Line {
    ghost use Rattle.zeb_program.specs.Says.{SaysText};

    /// Reads a line, in which words are separated by spaces and tabs:
    ///
    /// ```text
    /// init
    /// check
    /// reindex
    /// upgrade
    /// create NAME
    /// drop NAME
    /// stat NAME
    /// dump NAME
    /// update NAME FILE
    /// delete NAME FILE
    /// adelete NAME FILE
    /// find NAME QUERY
    /// page NAME K N QUERY
    /// scan NAME N P QUERY
    /// mark TEXT
    /// ```
    ///
    /// FILE, QUERY and TEXT are the rest of the line, and are not empty. FILE is `hex:` with the hexadecimal digits of
    /// one file's bytes, or else a path. Of the records that a query finds `find` shows the first 20, and `page` shows N
    /// (0 to 1,000,000) from the K-th on (at least 1). A scan shows N terms (1 to 1,000), the start at place P (1 to N).
    /// All these numbers have 1 to 9 digits.
    pub fn read(alloc: Global, text: &str) -> Result<Line, AllocError>
        ensures { IfOk result (SaysText text.now) }
    {
        let text = without_blanks(text);
        if text.is_empty() || text.starts_with('#') {
            return Ok(Line::Remark);
        }
        let (word, rest) = cut_word(text);
        if let Some(kind) = kind_of(word) {
            return read_change(alloc, kind, rest);
        }
        if let Some(command) = read_command(alloc, text)? {
            return Ok(Line::Command(command));
        }
        let mark = read_mark(alloc, text)?;
        Ok(mark.map_or(Line::Bad, Line::Mark))
    }
}

/// The command, but for a change, that a line names which begins and ends with no blank, and is not empty.
fn read_command(alloc: Global, text: &str) -> Result<Option<Command>, AllocError>
    requires { (kind : Kind) → first_word text.now ≢ kind_word kind }
    ensures { IfOk result
        (λ found. MatchOption found ((command : Command) → ¬ Names text.now command)
        (Names text.now)) }
{
    let (word, rest) = cut_word(text);
    match word {
        "init" => Ok(rest.is_empty().then_some(Command::Init)),
        "check" => Ok(rest.is_empty().then_some(Command::Check)),
        "reindex" => Ok(rest.is_empty().then_some(Command::Reindex)),
        "upgrade" => Ok(rest.is_empty().then_some(Command::Upgrade)),
        "create" => Ok(DbName::read(rest).map(Command::Create)),
        "drop" => Ok(DbName::read(rest).map(Command::Drop)),
        "stat" => Ok(DbName::read(rest).map(Command::Stat)),
        "dump" => Ok(DbName::read(rest).map(Command::Dump)),
        "find" => read_find(alloc, rest),
        "page" => read_page(alloc, rest),
        "scan" => read_scan(alloc, rest),
        _ => Ok(None),
    }
}

/// `NAME FILE`, behind the word of a change.
fn read_change(alloc: Global, kind: Kind, text: &str) -> Result<Line, AllocError>
    ensures { IfOk result (SaysChange kind text.now) }
{
    let (name, file) = cut_word(text);
    let Some(database) = DbName::read(name) else {
        return Ok(Line::Bad);
    };
    if file.is_empty() {
        return Ok(Line::Bad);
    }
    match bytes_of_file(alloc, file)? {
        Some(bytes) => {
            let files = vec![in alloc; bytes]?;
            Ok(Line::Command(Command::Change {
                kind,
                database,
                files,
            }))
        }
        None => Ok(Line::Path(PathChange {
            kind,
            database,
            path: String::from_str(alloc, file)?,
        })),
    }
}

/// `NAME QUERY`.
fn read_find(alloc: Global, text: &str) -> Result<Option<Command>, AllocError>
    ensures { IfOk result (λ found. MatchOption found (¬ HasFind text.now) (IsFind text.now)) }
{
    let (name, query) = cut_word(text);
    let Some(database) = DbName::read(name) else {
        return Ok(None);
    };
    if query.is_empty() {
        return Ok(None);
    }
    Ok(Some(Command::Find {
        database,
        query: String::from_str(alloc, query)?,
        first: 1,
        count: SHOWN,
    }))
}

/// `NAME K N QUERY`.
fn read_page(alloc: Global, text: &str) -> Result<Option<Command>, AllocError>
    ensures { IfOk result (λ found. MatchOption found (¬ HasPage text.now) (IsPage text.now)) }
{
    let (name, rest) = cut_word(text);
    let (first, rest) = cut_word(rest);
    let (count, query) = cut_word(rest);
    let Some(database) = DbName::read(name) else {
        return Ok(None);
    };
    let (Some(first), Some(count)) = (number_of(first), number_of(count)) else {
        return Ok(None);
    };
    if first == 0 || count > PAGED || query.is_empty() {
        return Ok(None);
    }
    Ok(Some(Command::Find {
        database,
        query: String::from_str(alloc, query)?,
        first,
        count,
    }))
}

/// `NAME N P QUERY`.
fn read_scan(alloc: Global, text: &str) -> Result<Option<Command>, AllocError>
    ensures { IfOk result (λ found. MatchOption found (¬ HasScan text.now) (IsScan text.now)) }
{
    let (name, rest) = cut_word(text);
    let (number, rest) = cut_word(rest);
    let (position, query) = cut_word(rest);
    let Some(database) = DbName::read(name) else {
        return Ok(None);
    };
    let (Some(number), Some(position)) = (number_of(number), number_of(position)) else {
        return Ok(None);
    };
    if number > TERMS || position == 0 || position > number || query.is_empty() {
        return Ok(None);
    }
    Ok(Some(Command::Scan {
        database,
        query: String::from_str(alloc, query)?,
        number,
        position,
    }))
}

/// The text of a line `mark TEXT`.
fn read_mark(alloc: Global, text: &str) -> Result<Option<String>, AllocError>
    ensures { IfOk result (λ found. MatchOption found (¬ HasMark text.now)
        (λ mark. NamesMark text.now (string_bytes mark))) }
{
    let (word, mark) = cut_word(text);
    if word == "mark" && !mark.is_empty() {
        return Ok(Some(String::from_str(alloc, mark)?));
    }
    Ok(None)
}
