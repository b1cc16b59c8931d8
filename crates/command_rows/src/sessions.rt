//! Sessions over a register, and what is printed for their answers.

use crate::lines::{command_of, cut};
use crate::readers::changed;
use sqlite::{Alter, Connection};
use std::alloc::{AllocError, Global};
use worked_samples::{profile, records};
use zeb_engine::{Limits, Refusal, Reply, Session, refusal_line, render, status};
use zeb_profile::Profile;
use zeb_register::{Layout, Rows};

pub type Answer = Result<Reply, Refusal>;

/// Why a story isn't told to its end.
#[derive(Debug, Drop)]
pub enum Stopped {
    /// Memory was refused beside its commands.
    Memory,
    /// This came in place of what the story says.
    Otherwise(String),
}

impl From<AllocError> for Stopped {
    fn from(_error: AllocError) -> Stopped {
        Stopped::Memory
    }
}

/// A session over the connection under a profile, by its name or its text. The connection is given back where it is refused.
pub fn adopted<S: Alter + Drop, L: Layout>(
    alloc: Global,
    connection: Connection<S>,
    name: &str,
    limits: Limits,
) -> Result<Session<S, L>, Connection<S>> {
    if !connection.is_autocommit() {
        return Err(connection);
    }
    let Ok(profile) = Profile::read(alloc, profile(name)) else {
        return Err(connection);
    };
    match Session::adopt(alloc, connection, profile, limits) {
        Ok(session) => Ok(session),
        Err((connection, _)) => Err(connection),
    }
}

/// The answer to a line, which names a command, or a change behind `from`. No clause is stated here, so that a test holds no more than what is
/// printed.
pub fn answer<S: Alter, L: Layout>(
    alloc: Global,
    session: &mut Session<S, L>,
    line: &str,
) -> Answer {
    match line.strip_prefix("from ") {
        Some(change) => changed(alloc, session, change),
        None => session.command(&command_of(alloc, line)?),
    }
}

fn ask_in<S: Alter + Drop, L: Layout>(
    alloc: Global,
    store: Connection<S>,
    (name, limits): (&str, Limits),
    line: &str,
) -> (Connection<S>, Answer) {
    match adopted::<S, L>(alloc, store, name, limits) {
        Ok(mut session) => {
            let answer = answer(alloc, &mut session, line);
            (session.release(), answer)
        }
        Err(store) => (store, Err(Refusal::Memory)),
    }
}

/// The answer to a line by a session of its own over a store, which is given back. The setting is `either PROFILE`, over the layout `L`, or
/// `limited PROFILE`: the same with one record in a command at most, and one number; or `plain PROFILE`, over a row for each posting.
/// `alter STATEMENT` changes one row.
pub fn ask<S: Alter + Drop, L: Layout>(
    alloc: Global,
    mut store: Connection<S>,
    setting: &str,
    line: &str,
) -> (Connection<S>, Answer) {
    if let Some(sql) = line.strip_prefix("alter ") {
        let answer = altered(&mut store, sql);
        return (store, answer);
    }
    let (word, profile) = cut(setting);
    match word {
        "plain" => ask_in::<S, Rows>(alloc, store, (profile, Limits::GREATEST), line),
        "limited" => ask_in::<S, L>(alloc, store, (profile, Limits::new(1, 1)), line),
        _ => ask_in::<S, L>(alloc, store, (profile, Limits::GREATEST), line),
    }
}

fn altered<S: Alter>(store: &mut Connection<S>, sql: &str) -> Answer {
    match store.execute(sql, &[])? {
        1 => Ok(Reply::Done),
        _ => Err(Refusal::Memory),
    }
}

/// Whether a command was refused for want of memory, or because the store failed, which may lack it.
pub fn lacks_memory(answer: &Answer) -> bool {
    matches!(answer, Err(Refusal::Memory | Refusal::Store))
}

/// What is printed for an answer; for a refusal `S: TEXT`, its status and what stands behind `zebraidx: ` in its line.
pub fn told(alloc: Global, answer: &Answer) -> Result<String, AllocError> {
    match answer {
        Ok(reply) => match String::from_utf8(render(alloc, reply)?) {
            Ok(text) => Ok(text),
            Err(_) => String::from_str(alloc, "no text"),
        },
        Err(refusal) => {
            let line = refusal_line(alloc, refusal)?;
            let text = line.strip_prefix("zebraidx: ").unwrap_or("another line");
            format!(in alloc; "{}: {text}", status(refusal))
        }
    }
}

/// Whether this is printed for an answer: lines with `; ` between, or `bytes of RECORDS`.
pub fn is_printed(alloc: Global, answer: &Answer, wanted: &str) -> Result<bool, AllocError> {
    let text = told(alloc, answer)?;
    if let Some(names) = wanted.strip_prefix("bytes of ") {
        return Ok(text.as_bytes() == records(alloc, names)?.as_slice());
    }
    let are_lines = text.ends_with('\n') == answer.is_ok();
    Ok(are_lines && text.split_terminator('\n').eq(wanted.split("; ")))
}

/// This is printed for the answer to a line.
pub fn prints(alloc: Global, answer: &Answer, line: &str, wanted: &str) -> Result<(), Stopped> {
    if is_printed(alloc, answer, wanted)? {
        return Ok(());
    }
    let text = told(alloc, answer)?;
    Err(Stopped::Otherwise(format!(in alloc; "{line}: {text} in place of {wanted}")?))
}
