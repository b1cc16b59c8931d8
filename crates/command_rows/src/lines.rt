//! Commands as lines of text.

use std::alloc::{AllocError, Global};
use worked_samples::records;
use zeb_engine::{Command, DbName, Kind, Refusal};

/// Why a line isn't read.
#[derive(Debug, Drop)]
pub enum Unread {
    Memory,
    NoCommand,
}

impl From<AllocError> for Unread {
    fn from(_error: AllocError) -> Unread {
        Unread::Memory
    }
}

/// Where a line is no command a test is at fault: it is answered as for want of memory, also when it is asked again.
impl From<Unread> for Refusal {
    fn from(_fault: Unread) -> Refusal {
        Refusal::Memory
    }
}

/// The first word of a text, and what stands behind the blank after it.
pub fn cut(text: &str) -> (&str, &str) {
    text.split_once(' ').unwrap_or((text, ""))
}

/// The database of a name.
pub fn database(name: &str) -> Result<DbName, Unread> {
    DbName::read(name).ok_or(Unread::NoCommand)
}

/// The kind of a change by its word.
pub fn kind_of(word: &str) -> Result<Kind, Unread> {
    match word {
        "update" => Ok(Kind::Update),
        "delete" => Ok(Kind::Delete),
        "adelete" => Ok(Kind::Adelete),
        _ => Err(Unread::NoCommand),
    }
}

fn number(digits: &str) -> Result<u32, Unread> {
    digits.parse::<u32>().or(Err(Unread::NoCommand))
}

/// The command of a line: that of a batch, but that behind the database of a change there may be any number of files; and `analyse` with such
/// files. A file is `hex:` and the digits of its bytes, or the names of records with `+` between.
pub fn command_of(alloc: Global, line: &str) -> Result<Command, Unread> {
    let (word, rest) = cut(line);
    match word {
        "init" => Ok(Command::Init),
        "check" => Ok(Command::Check),
        "reindex" => Ok(Command::Reindex),
        "upgrade" => Ok(Command::Upgrade),
        "create" => Ok(Command::Create(database(rest)?)),
        "drop" => Ok(Command::Drop(database(rest)?)),
        "stat" => Ok(Command::Stat(database(rest)?)),
        "dump" => Ok(Command::Dump(database(rest)?)),
        "analyse" => Ok(Command::Analyse {
            files: files_of(alloc, rest)?,
        }),
        _ => command_in(alloc, word, rest),
    }
}

/// The command of a line whose second word is its database, and which has more behind that.
fn command_in(alloc: Global, word: &str, rest: &str) -> Result<Command, Unread> {
    let (name, rest) = cut(rest);
    let name = database(name)?;
    match word {
        "find" => find(alloc, name, (1, 20), rest),
        "page" => {
            let (first, rest) = cut(rest);
            let (count, query) = cut(rest);
            find(alloc, name, (number(first)?, number(count)?), query)
        }
        "scan" => {
            let (terms, rest) = cut(rest);
            let (position, query) = cut(rest);
            Ok(Command::Scan {
                database: name,
                query: String::from_str(alloc, query)?,
                number: number(terms)?,
                position: number(position)?,
            })
        }
        _ => Ok(Command::Change {
            kind: kind_of(word)?,
            database: name,
            files: files_of(alloc, rest)?,
        }),
    }
}

/// A find that shows, from the first one asked for, so many of its hits.
fn find(
    alloc: Global,
    database: DbName,
    (first, count): (u32, u32),
    query: &str,
) -> Result<Command, Unread> {
    Ok(Command::Find {
        database,
        query: String::from_str(alloc, query)?,
        first,
        count,
    })
}

fn files_of(alloc: Global, words: &str) -> Result<Vec<Vec<u8>>, Unread> {
    let mut files = Vec::new(alloc);
    for word in words.split_terminator(' ') {
        files.push(file_of(alloc, word)?).map_err(AllocError::from)?;
    }
    Ok(files)
}

fn file_of(alloc: Global, word: &str) -> Result<Vec<u8>, Unread> {
    match word.strip_prefix("hex:") {
        Some(digits) => hex::decode(alloc, digits).or(Err(Unread::NoCommand)),
        None => Ok(records(alloc, word)?),
    }
}
