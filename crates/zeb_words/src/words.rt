//! The commands of a command line, and the call that reads them.

ghost use Rattle.std.specs.Prelude.{◌≡◌, ◌≢◌, IfErr, IfOk, map, string_bytes, false, true};
ghost use Rattle.zeb_words.specs.Names.{NamesNone, NamesWords};
ghost use Rattle.zeb_words.specs.Misuses.{IsRefusedAs};
ghost use Rattle.zeb_words.specs.Parses.{IsParsedAs, IsRequest, help_word};
ghost use Rattle.zeb_words.specs.PrivateParses.{IsHelp, IsRefusal, IsUsageOf};

use crate::misuses::Misuse;
use crate::program::program;
use crate::reading::words_of;
use crate::tips::without_tips;
use clap::Error;
use clap::error::ErrorKind;
use std::alloc::{AllocError, Global};
use zeb_image::DbName;

/// What a command line names.
#[derive(Debug, Drop)]
pub struct Words {
    /// The path of the profile's file.
    pub config: String,
    /// The database.
    pub database: DbName,
    /// What is to be done.
    pub act: Act,
}

/// Which layout is asked for, in which a register is to be.
#[derive(Clone, Copy, Debug, PartialEq, Eq)]
pub enum LayoutChoice {
    /// Leaves: `--leaves` stands with the command.
    Leaves,
    /// None.
    Unsaid,
}

/// What a command line's command is, with its arguments as read.
#[derive(Debug, Drop)]
pub enum Act {
    /// Empties the register.
    Init(LayoutChoice),
    /// Makes an empty database of this name.
    Create(DbName),
    /// Takes away the database of this name.
    Drop(DbName),
    /// Updates by the records in the files at these paths, of which there is one at least; or only shows
    /// the occurrences of each record.
    Update {
        paths: Vec<String>,
        shows: bool,
    },
    /// Deletes by the records in the files at these paths, of which there is one at least.
    Delete(Vec<String>),
    /// The same, where a record that isn't kept is passed over.
    Adelete(Vec<String>),
    /// Counts.
    Stat,
    /// Writes the kept records.
    Dump,
    /// Compares the tables with the kept records.
    Check,
    /// Makes the registers anew from the kept records, under the profile.
    Reindex,
    /// Turns a register of an earlier format into one of today's.
    Upgrade(LayoutChoice),
    /// The records that a query finds, from the `first`-th on (1 to 999,999,999), at most `count` (0 to
    /// 1,000,000) of them.
    Find {
        query: String,
        first: u32,
        count: u32,
    },
    /// Terms around a query's: `number` (1 to 1,000) of them, the start at `position` (1 to `number`).
    Scan {
        query: String,
        number: u32,
        position: u32,
    },
    /// Runs the lines of the standard input, which is read whole first.
    Batch,
    /// Runs the lines of the standard input, each as it comes.
    Shell,
}

/// What is answered in place of a command.
#[derive(Debug, Drop)]
pub enum Usage {
    /// The program itself takes no command from them, for this cause.
    BadUsage(Misuse),
    /// The parser refused the words; its text, which says why. What it advises beside is left out.
    Refused(String),
    /// Help or the version was asked for; its text.
    Help(String),
    /// A growth was refused.
    Memory,
}

impl From<AllocError> for Usage {
    ghost use Rattle.zeb_words.specs.declared.words.Usage.TheVariants.{Memory};

    ghost from_gives = { λ _ usage. usage ≡ Memory };

    fn from(_error: AllocError) -> Usage {
        Usage::Memory
    }
}

/// Reads the words of a command line, the program's name not among them. The word `help` alone asks for what `--help` does.
pub fn read_words(alloc: Global, words: &[String]) -> Result<Words, Usage>
    ensures named { IfOk result (NamesWords (map string_bytes words.now)) }
    ensures parsed { IfOk result (IsParsedAs (map string_bytes words.now)) }
    ensures nameless { IfErr result (NamesNone (map string_bytes words.now)) }
    ensures refused { IfErr result (IsRefusedAs (map string_bytes words.now)) }
{
    if is_help(words) {
        return Err(help(alloc));
    }
    let program = program(alloc)?;
    match program.try_get_matches_from(words) {
        Ok(matches) => words_of(alloc, &matches),
        Err(error) => Err(usage_of(alloc, &error)),
    }
}

/// Whether the words are the word `help` alone.
fn is_help(words: &[String]) -> bool
    ensures alone { result ≡ true → map string_bytes words.now ≡ help_word }
    ensures other { result ≡ false → map string_bytes words.now ≢ help_word }
{
    match words {
        [word] => word.as_str() == "help",
        _ => false,
    }
}

/// The help that `--help` asks for.
fn help(alloc: Global) -> Usage
    ensures { IsHelp result }
{
    let mut program = match program(alloc) {
        Ok(program) => program,
        Err(_) => return Usage::Memory,
    };
    match program.render_long_help() {
        Ok(text) => Usage::Help(text),
        Err(_) => Usage::Memory,
    }
}

/// What a refusal of the parser's comes to.
fn usage_of(alloc: Global, error: &Error) -> Usage
    ensures { IsUsageOf error.now result }
{
    if error.kind() == ErrorKind::OutOfMemory {
        return Usage::Memory;
    }
    match format!(in alloc; "{error}") {
        Ok(text) if is_asked_for(error.kind()) => Usage::Help(text),
        Ok(text) => refused(alloc, text.as_str()),
        Err(_) => Usage::Memory,
    }
}

/// A refusal with this text of the parser's, without what it advises.
fn refused(alloc: Global, text: &str) -> Usage
    ensures { IsRefusal result }
{
    match without_tips(alloc, text) {
        Ok(text) => Usage::Refused(text),
        Err(_) => Usage::Memory,
    }
}

/// Whether the words ask for what the error's text is: help or the version.
fn is_asked_for(kind: ErrorKind) -> bool
    ensures request { result ≡ true → IsRequest kind }
    ensures mistake { result ≡ false → IsRequest kind → ⊥ }
{
    matches!(kind, ErrorKind::DisplayHelp | ErrorKind::DisplayVersion)
}
