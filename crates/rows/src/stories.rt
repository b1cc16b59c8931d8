//! Stories: a store in memory that is taken through lines, one after the other.

use crate::faults::Fault;
use crate::folder::Folder;
use crate::layouts::Kept;
use crate::outcomes::Outcome;
use crate::rows::{Line, Row};
use crate::stores::Store;
use crate::texts::text_of;
use command_rows::lines::command_of;
use sqlite::{Connection, MemStore};
use std::alloc::Global;
use tables::queries::{execute, rows};
use zeb_engine::{Refusal, Reply, refusal_line, render, status};

/// The row of a line of a story, what the line was answered, and the layout of its session, or of the last one before it.
#[derive(Drop)]
pub struct Answered {
    pub row: Row,
    pub found: Outcome,
    pub kept: Kept,
}

/// What came of a story.
#[derive(Drop)]
pub struct Told {
    /// What its lines were answered.
    pub answered: Vec<Answered>,
    /// The number of the last line that was begun: the one at fault, if there is a fault.
    pub number: usize,
    /// Why it wasn't told to its end.
    pub result: Result<(), Fault>,
}

/// Takes a new store through these lines, of which `either` stands for this layout, if for one.
pub fn tell_story(
    folder: &Folder,
    either: Option<Kept>,
    lines: &[Line<'_>],
) -> Result<Told, Fault> {
    let mut story = Story::new(folder, either)?;
    let result = story.tell(lines);
    let Story {
        answered,
        number,
        ..
    } = story;
    Ok(Told {
        answered,
        number,
        result,
    })
}

/// A store, and what is known of its story.
#[derive(Drop)]
struct Story<'a> {
    folder: &'a Folder,
    /// The layout of `either`, where there is one.
    either: Option<Kept>,
    /// The layout of the last session, or of the one to come where there was none.
    kept: Kept,
    store: Store,
    /// Queries that were noted, and the rows that they found then.
    queries: &'a str,
    noted: String,
    number: usize,
    answered: Vec<Answered>,
}

impl<'a> Story<'a> {
    /// A new store, of which nothing is told yet.
    fn new(folder: &'a Folder, either: Option<Kept>) -> Result<Story<'a>, Fault> {
        Ok(Story {
            folder,
            either,
            kept: either.unwrap_or(Kept::Packed),
            store: Store::new(folder.alloc)?,
            queries: "",
            noted: String::new(folder.alloc),
            number: 0,
            answered: Vec::new(folder.alloc),
        })
    }

    /// Takes the store through these lines.
    fn tell(&mut self, lines: &[Line<'_>]) -> Result<(), Fault> {
        for line in lines {
            self.number = line.number;
            match line.text.strip_prefix("as ") {
                Some(paths) => self.tell_files(paths)?,
                None => self.tell_line(line.text)?,
            }
        }
        Ok(())
    }

    fn tell_files(&mut self, paths: &str) -> Result<(), Fault> {
        let Ok(text) = String::from_utf8(self.folder.joined(paths)?) else {
            return Err(Fault::Line("the files are no text"));
        };
        for line in text.split_terminator('\n') {
            self.tell_line(line)?;
        }
        Ok(())
    }

    /// Carries out a line, unless it is a remark.
    fn tell_line(&mut self, text: &str) -> Result<(), Fault> {
        if text.starts_with('#') {
            return Ok(());
        }
        let number = self.number;
        let row = Row::read(self.folder, &Line { number, text }, false)?;
        let found = self.answer(&text_of(self.folder.alloc, &row.input)?)?;
        let kept = self.kept;
        self.answered.push(Answered { row, found, kept })?;
        Ok(())
    }

    /// Carries out an input.
    fn answer(&mut self, input: &str) -> Result<Outcome, Fault> {
        let either = self.either;
        let (word, rest) = input.split_once(' ').unwrap_or((input, ""));
        match word {
            "plain" | "packed" | "leaves" => self.begin(Kept::named(word)?, rest),
            "either" => match either {
                Some(kept) => self.begin(kept, rest),
                None => Err(Fault::Line("no layout")),
            },
            "work" => self.count(rest),
            "sql" | "alter" | "SELECT" | "note" | "same" | "limit" => {
                let mut connection = self.store.take()?;
                let found = self.look(&mut connection, input)?;
                self.store = Store::Free(connection);
                written(self.folder.alloc, &found)
            }
            _ => self.command(input),
        }
    }

    /// Begins a session of a layout under the profile of a file. It is told where the store is refused.
    fn begin(&mut self, kept: Kept, path: &str) -> Result<Outcome, Fault> {
        self.kept = kept;
        let folder = self.folder;
        self.store.begin(folder.alloc, kept, folder.text(path)?)?;
        let is_refused = matches!(self.store, Store::Free(_));
        written(folder.alloc, if is_refused { "refused\n" } else { "" })
    }

    /// What is printed for a command, and its status.
    fn command(&mut self, line: &str) -> Result<Outcome, Fault> {
        let command = command_of(self.folder.alloc, line)?;
        outcome_of(self.folder.alloc, &self.store.answer(&command)?)
    }

    /// The same, and in the last line how many rows of `dict` it read and wrote, and how many of `blocks`.
    fn count(&mut self, line: &str) -> Result<Outcome, Fault> {
        let mut found = self.command(line)?;
        let work = self.store.work();
        let counts = format!(in self.folder.alloc;
            ", {} {} {} {}\n",
            work.dict_read, work.dict_written, work.block_read, work.block_written
        )?;
        found.output.pop();
        found.output.extend_from_slice(counts.as_bytes())?;
        Ok(found)
    }

    /// Alters the tables, looks at them, or limits the steps of a statement.
    fn look(
        &mut self,
        connection: &mut Connection<MemStore>,
        input: &str,
    ) -> Result<String, Fault> {
        let folder = self.folder;
        let alloc = folder.alloc;
        let (word, rest) = input.split_once(' ').unwrap_or((input, ""));
        match word {
            "sql" => return executed(alloc, connection, rest),
            "alter" => return altered(alloc, connection, rest),
            "SELECT" => return selected(alloc, connection, input),
            "same" => return self.differing(connection),
            "limit" => connection.set_step_limit(rest.parse().ok()),
            _ => {
                self.queries = folder.text(rest)?;
                self.noted = all_found(alloc, connection, self.queries)?;
            }
        }
        Ok(String::new(alloc))
    }

    /// What the queries that were noted find now, or nothing where they find the same.
    fn differing(&self, connection: &mut Connection<MemStore>) -> Result<String, Fault> {
        if self.queries.is_empty() {
            return Err(Fault::Line("nothing was noted"));
        }
        let found = all_found(self.folder.alloc, connection, self.queries)?;
        if found.as_str() == self.noted.as_str() {
            Ok(String::new(self.folder.alloc))
        } else {
            Ok(found)
        }
    }
}

/// This text, with status 0.
fn written(alloc: Global, text: &str) -> Result<Outcome, Fault> {
    Ok(Outcome::new(alloc, 0, Vec::from_slice(alloc, text.as_bytes())?))
}

/// What is printed for an answer, and its status.
fn outcome_of(alloc: Global, answer: &Result<Reply, Refusal>) -> Result<Outcome, Fault> {
    match answer {
        Ok(reply) => Ok(Outcome::new(alloc, 0, render(alloc, reply)?)),
        Err(refusal) => {
            let mut found = written(alloc, &refusal_line(alloc, refusal)?)?;
            found.output.push(b'\n')?;
            found.status = status(refusal);
            Ok(found)
        }
    }
}

/// The line of how many rows a statement changes, or that it is refused.
fn executed(
    alloc: Global,
    connection: &mut Connection<MemStore>,
    statement: &str,
) -> Result<String, Fault> {
    let mut line = String::new(alloc);
    if execute(connection, statement, &mut line).is_err() {
        line.push_str("refused")?;
    }
    line.push_str("\n")?;
    Ok(line)
}

/// The same, or nothing where it changes some row.
fn altered(
    alloc: Global,
    connection: &mut Connection<MemStore>,
    statement: &str,
) -> Result<String, Fault> {
    let line = executed(alloc, connection, statement)?;
    if matches!(line.as_str(), "0\n" | "refused\n") {
        Ok(line)
    } else {
        Ok(String::new(alloc))
    }
}

/// The rows that a query finds, or that it is refused.
fn selected(
    alloc: Global,
    connection: &mut Connection<MemStore>,
    query: &str,
) -> Result<String, Fault> {
    match all_found(alloc, connection, query) {
        Err(Fault::Line(_)) => Ok(String::from_str(alloc, "refused\n")?),
        found => found,
    }
}

/// The rows that each of these queries finds, a query and a row a line.
fn all_found(
    alloc: Global,
    connection: &mut Connection<MemStore>,
    queries: &str,
) -> Result<String, Fault> {
    let mut found = String::new(alloc);
    for query in queries.split_terminator('\n') {
        if rows(connection, query, &mut found).is_err() {
            return Err(Fault::Line("a query that is refused"));
        }
    }
    Ok(found)
}
